//! A chain over the codes of the blocks of a table.
use crate::cases::{Call, file_bytes, judge};
use crate::column_tests::{column, rows_text};
use au_batches::{add_texts, coded_places};
use au_blocks::{Table, read_table};
use au_codes::{Codebook, LongTexts, add_plan, code_plan};
use au_columns::{Batch, run_chain};
use au_expr::EvalFault;
use au_physical::{Physical, is_chain};
use au_plain::{Comparison2, PExpr};
use au_value::{NoMemory, Value, Word};
use std::alloc::Global;
use std::test::Fail;

// The first column, and twice the second one, where the first is before a long text.
fn doubled(alloc: Global) -> Result<Physical, NoMemory> {
    let scan = Box::new(alloc, Physical::Scan(0, 2))?;
    let twice = PExpr::Add(column(alloc, 1)?, column(alloc, 1)?);
    let extended = Box::new(alloc, Physical::Extend(twice, scan))?;
    let filtered = Box::new(alloc, Physical::Filter(before(alloc)?, extended))?;
    Ok(Physical::Keep(vec![in alloc; 0, 2]?, filtered))
}

fn before(alloc: Global) -> Result<PExpr, NoMemory> {
    let word = Word::new(String::from_str(alloc, "considerably longer")?);
    let literal = Box::new(alloc, PExpr::Literal(Value::Text(word)))?;
    Ok(PExpr::Compare(Comparison2::Less, column(alloc, 0)?, literal))
}

// The least value of the first column and the greatest of the second one, in codes.
fn coded(alloc: Global, book: &Codebook, table: &Table) -> Result<Batch, NoMemory> {
    let columns = table.columns();
    let blocks = table.blocks();
    let batch = coded_places(alloc, book, columns, &blocks, &[0, 5])?;
    Ok(batch)
}

fn book_of(alloc: Global, table: &Table, plan: &Physical) -> Result<Codebook, NoMemory> {
    let columns = table.columns();
    let blocks = table.blocks();
    let mut texts = LongTexts::new(alloc);
    add_texts(&mut texts, columns, &blocks, &[0, 5])?;
    add_plan(&mut texts, plan)?;
    let book = texts.book()?;
    Ok(book)
}

fn chain_text(alloc: Global, plan: &Physical, batch: Batch) -> Result<String, Fail> {
    if !is_chain(plan) {
        return Err(Fail::from("no chain"));
    }
    match run_chain(alloc, plan, batch) {
        Ok(rows) => rows_text(alloc, &rows),
        Err(EvalFault::Overflow) => Ok(format!(in alloc; "!")?),
        Err(_) => Err(Fail::from("no memory")),
    }
}

fn rows_of(alloc: Global, table: &Table) -> Result<String, Fail> {
    let mut plan = doubled(alloc)?;
    let book = book_of(alloc, table, &plan)?;
    code_plan(&book, &mut plan);
    let batch = coded(alloc, &book, table)?;
    chain_text(alloc, &plan, batch)
}

struct Chained;

impl Call for Chained {
    fn outcome(alloc: Global, given: &str) -> Result<String, Fail> {
        let bytes = file_bytes(alloc, given)?;
        match read_table(alloc, bytes.as_slice()) {
            Ok(table) => rows_of(alloc, &table),
            Err(fault) => Ok(format!(in alloc; "{fault:?}")?),
        }
    }
}

// Short and long texts, before and behind the plan's own; blocks of several alternatives; no row; and a number that leaves
// 128 bits on a row that is left out. The numbers were made by another program.
const DOUBLED: &str =
    "name,n:int~a,1~d,2~considerably,3~considerably longeR,4~considerably longer,5~ -> 64467557795568419835834642423596711937 2;66086078371458212895276410661232443404 6;66086078371458212895276410661232443405 8;
_block,_role,name,n:int~x,guess,d,1~x,alt,b,9~y,guess,c,4~y,alt,é,-7~ -> 65132171793460877772286545953736884225 18;65796785791353335708738449483877056513 8;
_block,_role,name,n:int~x,guess,d,1~x,absent,,~y,guess,,-9223372036854775808~ -> 0 -18446744073709551616;
name,n:int~ -> 
name,n:int~z,1~z,170141183460469231731687303715884105727~ -> !";

#[test]
fn chains_over_blocks(rt: HostRuntime) -> Result<(), Fail> {
    judge::<Chained>(&rt, rt.alloc(), DOUBLED)
}
