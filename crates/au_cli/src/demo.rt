//! The demonstration: a query over a generated table, and its answer in four lines.
ghost use Rattle.std.specs.Prelude.{◌≡◌, ◌⊎◌, ◌≤◌, ◌∷◌, [], false, Err, Some, Ok, IfOk, OnOk};
ghost use Rattle.au_parse.specs.Views.{statement_tree};
ghost use Rattle.au_parse.specs.Whole.{WholeQuery};
ghost use Rattle.au_blocks.specs.Read.{table_of};
ghost use Rattle.au_gen.specs.Generator.{text as text_of};
ghost use Rattle.au_print.specs.DemoTexts.{demo_text as lines_of};
ghost use Rattle.au_engine.specs.Answers.{RowsHold, answer_fits, answer_rows, statement_defects};
ghost use Rattle.au_engine.specs.Reading.{statement_of};
ghost use Rattle.au_words.specs.Words.{greatest_workers};
ghost use Rattle.au_cli.specs.Demo.{Demonstrates, demo_name, demo_query};

use au_blocks::{Table, TableFault, read_table};
use au_engine::{EngineFault, Options, answer, read_query};
use au_expr::EvalFault;
use au_gen::table_text;
use au_par::{Gate, let_go};
use au_parse::Statement;
use au_print::{Answer, demo_text};
use au_value::{NoMemory, Word};
use std::alloc::Global;
use std::thread::Threads;

const NAME: &str = "demo";

const QUERY: &str = "SELECT grp, COUNT(*) AS n, SUM(amount) AS total FROM demo GROUP BY grp";

// What a fault of a query is that is not refused.
fn query_fault(_fault: EngineFault) -> NoMemory
    requires { _fault ≡ EngineFault.NoMemory }
{
    NoMemory
}

// The statement of the query.
fn statement(alloc: Global) -> Result<Statement, NoMemory>
    ensures tree { IfOk result (λ s. statement_of demo_query ≡ Some (statement_tree s)) }
    ensures whole { IfOk result (λ s. WholeQuery (statement_tree s)) }
{
    match read_query(alloc, QUERY) {
        Ok(statement) => Ok(statement),
        Err(fault) => Err(query_fault(fault)),
    }
}

// What a fault of a text is that is a table.
fn table_fault(_fault: TableFault) -> NoMemory
    requires { _fault ≡ TableFault.NoMemory }
{
    NoMemory
}

// The block table that is generated.
fn generated(alloc: Global, start: u32, blocks: u32) -> Result<Table, NoMemory>
    requires some { 1 ≤ blocks }
    requires few { blocks ≤ 100000 }
    ensures { IfOk result (λ t. table_of (text_of start blocks) ≡ Ok t) }
{
    let text = table_text(alloc, start, blocks)?;
    match read_table(alloc, text.as_slice()) {
        Ok(table) => Ok(table),
        Err(fault) => Err(table_fault(fault)),
    }
}

// The table under its name.
fn demo_tables(alloc: Global, table: Table) -> Result<Vec<(Word, Table)>, NoMemory>
    ensures { IfOk result (λ ts. ts.items ≡ (demo_name, table) ∷ []) }
{
    let name = Word::new(String::from_str(alloc, NAME)?);
    Ok(vec![in alloc; (name, table)]?)
}

// What a fault of a statement is that has no defect.
fn answer_fault(fault: EngineFault) -> EvalFault
    requires { (fault ≡ EngineFault.Overflow) ⊎ (fault ≡ EngineFault.NoMemory) }
    ensures { result ≡ EvalFault.Overflow → fault ≡ EngineFault.Overflow }
{
    match fault {
        EngineFault::Query(_) => unreachable!(),
        EngineFault::Limit(_) => unreachable!(),
        EngineFault::Overflow => EvalFault::Overflow,
        EngineFault::NoMemory => EvalFault::NoMemory,
    }
}

// The answer of a statement without a defect over the table.
fn answered<R: Threads + Sync, G: Gate + Sync>(
    rt: &R,
    alloc: Global,
    table: Table,
    statement: &Statement,
    workers: usize,
    gate: G,
) -> Result<Answer, EvalFault>
    requires workers { (1 ≤ workers) × (workers ≤ greatest_workers) }
    requires whole { WholeQuery (statement_tree statement.now) }
    requires typed { statement_defects ((demo_name, table) ∷ []) (statement_tree statement.now) ≡ [] }
    ensures rows { IfOk result (λ a. a.rows ≡ answer_rows false ((demo_name, table) ∷ []) (statement_tree statement.now)) }
    ensures holds { IfOk result (λ a. RowsHold ((demo_name, table) ∷ []) (statement_tree statement.now) a.rows) }
    ensures overflow { result ≡ Err EvalFault.Overflow → answer_fits false ((demo_name, table) ∷ []) (statement_tree statement.now) ≡ false }
{
    let tables = match demo_tables(alloc, table) {
        Ok(tables) => tables,
        Err(NoMemory) => return Err(EvalFault::NoMemory),
    };
    let options = Options {
        combine: false,
        workers,
        compress: None,
        points: false,
    };
    match answer(rt, alloc, statement, tables.as_slice(), options, gate) {
        Ok(answer) => {
            let_go(rt, workers, tables);
            Ok(answer)
        }
        Err(fault) => Err(answer_fault(fault)),
    }
}

/// The four lines of a demonstration: of the answer of a query over the block table that `start` and the number of blocks
/// give.
///
/// `Overflow` comes only where a number of the answer leaves 128 bits.
pub(crate) fn demonstration<R: Threads + Sync, G: Gate + Sync>(
    rt: &R,
    alloc: Global,
    start: u32,
    blocks: u32,
    workers: usize,
    gate: G,
) -> Result<Vec<u8>, EvalFault>
    requires some { 1 ≤ blocks }
    requires few { blocks ≤ 100000 }
    requires workers { (1 ≤ workers) × (workers ≤ greatest_workers) }
    ensures text { IfOk result (λ v. Demonstrates start blocks (λ ts s. v.items ≡ lines_of (answer_rows false ts s))) }
    ensures holds { OnOk result (Demonstrates start blocks (λ ts s. RowsHold ts s (answer_rows false ts s))) }
    ensures overflow { result ≡ Err EvalFault.Overflow → Demonstrates start blocks (λ ts s. answer_fits false ts s ≡ false) }
{
    let statement = match statement(alloc) {
        Ok(statement) => statement,
        Err(NoMemory) => return Err(EvalFault::NoMemory),
    };
    let table = match generated(alloc, start, blocks) {
        Ok(table) => table,
        Err(NoMemory) => return Err(EvalFault::NoMemory),
    };
    let answer = match answered(rt, alloc, table, &statement, workers, gate) {
        Ok(answer) => answer,
        Err(fault) => return Err(fault),
    };
    match demo_text(alloc, &answer.rows) {
        Ok(text) => Ok(text),
        Err(EvalFault::NoMemory) => Err(EvalFault::NoMemory),
        Err(EvalFault::Overflow) => unreachable!(),
    }
}
