//! The program of a statement as a text for people.
ghost use Rattle.std.specs.Prelude.{◌≡◌, [], IfOk, IfErr, OnOk, true};
ghost use Rattle.au_algebra.specs.Trees.{tree};
ghost use Rattle.au_algebra.specs.Typing.{IsTyped};
ghost use Rattle.au_parse.specs.Views.{statement_tree};
ghost use Rattle.au_parse.specs.Whole.{WholeQuery};
ghost use Rattle.au_engine.specs.Answers.{AnswerCause, statement_defects};
ghost use Rattle.au_engine.specs.Exchange.{value_kinds};
ghost use Rattle.au_engine.specs.Explaining.{ExplainsTree, IsExplanation, names_of, program_text as program_text_of};

use crate::answers::tables::schemas;
use crate::exchange::program_lines::push_program;
use crate::faults::EngineFault;
use crate::typing::resolved;
use au_blocks::Table;
use au_parse::Statement;
use au_program::{Program, Rules, program_of};
use au_typing::Typed;
use au_value::{NoMemory, Word};
use std::alloc::Global;

/// How a statement is answered over tables, each under its name: the text of the program by which [`answer`](crate::answer)
/// finds its answer where nothing is asked beside it.
///
/// `Query` names a defect of the statement and its byte, one of ten. `Overflow` and `Limit` never come. `NoMemory` comes
/// also where a row cannot have so many columns.
pub fn explained_text(
    alloc: Global,
    statement: &Statement,
    tables: &[(Word, Table)],
) -> Result<Vec<u8>, EngineFault>
    requires whole { WholeQuery (statement_tree statement.now) }
    ensures typed { OnOk result (statement_defects tables.now (statement_tree statement.now) ≡ []) }
    ensures text { IfOk result (λ text. IsExplanation tables.now (statement_tree statement.now) text.items) }
    ensures refused { IfErr result (AnswerCause (statement_defects tables.now (statement_tree statement.now)) true) }
{
    let typed = match resolved(alloc, statement, tables) {
        Ok(typed) => typed,
        Err(fault) => return Err(fault),
    };
    match tree_explained(alloc, &typed, tables) {
        Ok(text) => Ok(text),
        Err(NoMemory) => Err(EngineFault::NoMemory),
    }
}

// The text of the program of a tree that is typed for the tables.
fn tree_explained(
    alloc: Global,
    typed: &Typed,
    tables: &[(Word, Table)],
) -> Result<Vec<u8>, NoMemory>
    requires { IsTyped (value_kinds tables.now) (tree typed.now.query) }
    ensures { IfOk result (λ text. ExplainsTree (names_of tables.now) (value_kinds tables.now) (tree typed.now.query) text.items) }
{
    let schemas = schemas(alloc, tables)?;
    let rules = Rules {
        compress: None,
        points: false,
    };
    let program = program_of(alloc, &typed.query, schemas.as_slice(), rules, false)?;
    program_text(alloc, tables, &program)
}

// The text of a program over tables.
fn program_text(
    alloc: Global,
    tables: &[(Word, Table)],
    program: &Program,
) -> Result<Vec<u8>, NoMemory>
    ensures { IfOk result (λ text. text.items ≡ program_text_of (names_of tables.now) program.now) }
{
    let mut text = String::new(alloc);
    push_program(&mut text, tables, program)?;
    Ok(text.into_bytes())
}
