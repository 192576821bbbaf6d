//! The table of a start and a number of blocks.
use au_gen::table_text;
use std::test::Fail;

const THREE_BLOCKS: &[u8] =
    b"_block,_role,id:int,grp:text,amount:int\n1,guess,1,g2,58\n1,alt,1,g3,65\n2,guess,2,g3,51\n3,guess,3,g2,19\n3,alt,3,g3,26\n";

#[test]
fn table_of_three_blocks(rt: HostRuntime) -> Result<(), Fail> {
    let text = table_text(rt.alloc(), 1, 3)?;
    assert_eq!(rt; text.as_slice(), THREE_BLOCKS);
    Ok(())
}
