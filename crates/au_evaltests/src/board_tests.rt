//! Boards on one thread.
use au_board::Board;
use std::test::Fail;

#[test]
fn two_pieces_and_the_end(rt: HostRuntime) -> Result<(), Fail> {
    let Ok((board, mut passes)) = Board::open(rt.alloc(), 2, 1) else {
        panic!(rt; "refused")
    };
    let pass = &mut passes[0];
    let Some(0) = board.draw(pass) else {
        panic!(rt; "the first piece")
    };
    let Some(1) = board.draw(pass) else {
        panic!(rt; "the second piece")
    };
    assert_eq!(rt; board.draw(pass), None, "the end");
    assert_eq!(rt; board.close(passes), 2);
    Ok(())
}

#[test]
fn closed_after_one_draw(rt: HostRuntime) -> Result<(), Fail> {
    let Ok((board, mut passes)) = Board::open(rt.alloc(), 3, 2) else {
        panic!(rt; "refused")
    };
    assert_eq!(rt; board.draw(&mut passes[1]), Some(0));
    assert_eq!(rt; board.close(passes), 1);
    Ok(())
}
