//! Texts for another engine: the encoded rows of a table, and the plan of a statement.
ghost use Rattle.std.specs.Prelude.{◌≡◌, ◌++◌, [], IfOk, IfErr, OnOk, codes, true};
ghost use Rattle.std.specs.Str.{is_utf8};
ghost use Rattle.au_algebra.specs.Trees.{tree};
ghost use Rattle.au_algebra.specs.Typing.{IsTyped};
ghost use Rattle.au_parse.specs.Views.{statement_tree};
ghost use Rattle.au_parse.specs.Whole.{WholeQuery};
ghost use Rattle.au_plain.specs.Plans.{plan_tree};
ghost use Rattle.au_sqltext.specs.Texts.{plan_text};
ghost use Rattle.au_engine.specs.Answers.{AnswerCause, statement_defects};
ghost use Rattle.au_engine.specs.Exchange.{IsPlanText, IsTreeText, encoded_text as encoded_text_of, value_kinds};

use crate::answers::tables::schemas;
use crate::faults::EngineFault;
use crate::typing::resolved;
use au_blocks::Table;
use au_parse::Statement;
use au_plain::Plan;
use au_program::{encoded_kinds, rewritten};
use au_sqltext::{plain_text, write_plan};
use au_translate::encoded;
use au_typing::Typed;
use au_value::{NoMemory, Word};
use std::alloc::Global;

/// The encoded rows of a table as CSV, in block order: for each of its c columns the lower bound, the guess and the upper
/// bound, and behind them the least, the guessed and the greatest number of copies. Each record has 3c + 3 fields.
///
/// The header names the columns `c0`, `c1` and so on, each with the kind of its values; those of a fixed-point column are
/// whole numbers of its units. A block that has no copies in any world has no row.
pub fn encoded_text(alloc: Global, table: &Table) -> Result<Vec<u8>, NoMemory>
    ensures text { IfOk result (λ text. text.items ≡ encoded_text_of table.now) }
{
    let kinds = encoded_kinds(alloc, table.columns())?;
    let rows = encoded(alloc, table)?;
    plain_text(alloc, kinds.as_slice(), rows.as_slice())
}

/// The text of the one plan of a statement over tables, each under its name, and LF. The plan reads the encoded rows of
/// the tables, of which the i-th is `ti`, and gives the encoded rows of the statement's bounded relation.
///
/// `Query` names a defect of the statement and its byte, one of ten. `Overflow` and `Limit` never come. `NoMemory` comes
/// also where a row cannot have so many columns.
pub fn rewritten_text(
    alloc: Global,
    statement: &Statement,
    tables: &[(Word, Table)],
) -> Result<Vec<u8>, EngineFault>
    requires whole { WholeQuery (statement_tree statement.now) }
    ensures typed { OnOk result (statement_defects tables.now (statement_tree statement.now) ≡ []) }
    ensures text { IfOk result (λ text. IsPlanText tables.now (statement_tree statement.now) text.items) }
    ensures refused { IfErr result (AnswerCause (statement_defects tables.now (statement_tree statement.now)) true) }
{
    let typed = match resolved(alloc, statement, tables) {
        Ok(typed) => typed,
        Err(fault) => return Err(fault),
    };
    match tree_text(alloc, &typed, tables) {
        Ok(text) => Ok(text),
        Err(NoMemory) => Err(EngineFault::NoMemory),
    }
}

// The text of the plan of a tree that is typed for the tables, and LF.
fn tree_text(alloc: Global, typed: &Typed, tables: &[(Word, Table)]) -> Result<Vec<u8>, NoMemory>
    requires { IsTyped (value_kinds tables.now) (tree typed.now.query) }
    ensures { IfOk result (λ text. IsTreeText (value_kinds tables.now) (tree typed.now.query) text.items) }
{
    let schemas = schemas(alloc, tables)?;
    let plan = rewritten(alloc, typed, schemas.as_slice())?;
    plan_line(alloc, &plan)
}

// The text of a plan, and LF, in UTF-8.
fn plan_line(alloc: Global, plan: &Plan) -> Result<Vec<u8>, NoMemory>
    ensures { IfOk result (λ line. (line.items ≡ plan_text (plan_tree plan.now) ++ codes "\n") × (is_utf8 line.items ≡ true)) }
{
    let text = write_plan(alloc, plan)?;
    let mut line = String::from_str(alloc, text.as_str())?.into_bytes();
    line.push(b'\n')?;
    Ok(line)
}
