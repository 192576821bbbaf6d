//! A statement over named tables as a typed tree.
ghost use Rattle.std.specs.Prelude.{◌≡◌, ◌⊎◌, [], Some, IfOk, IfErr, OnOk, map};
ghost use Rattle.std.specs.List.{AllByRecursion};
ghost use Rattle.au_algebra.specs.Trees.{tree};
ghost use Rattle.au_value.specs.Order.{data_kind};
ghost use Rattle.au_algebra.specs.Typing.{kinds_of};
ghost use Rattle.au_blocks.specs.Tables.{IsBlockTable, column_kinds};
ghost use Rattle.au_parse.specs.Views.{statement_tree};
ghost use Rattle.au_parse.specs.Whole.{WholeQuery};
ghost use Rattle.au_engine.specs.Answers.{IsDefect, answer_kinds, answer_names, answer_tree, blocks_of, statement_defects, typing_fault as typing_fault_of};

use crate::answers::tables::schemas;
use crate::faults::{EngineFault, QueryFault};
use au_blocks::Table;
use au_parse::Statement;
use au_typing::{Typed, TypingFault, resolve};
use au_value::{Kind, NoMemory, Word};
use std::alloc::Global;

/// The typed tree of a statement over tables, or one of its defects.
pub(crate) fn resolved(
    alloc: Global,
    statement: &Statement,
    tables: &[(Word, Table)],
) -> Result<Typed, EngineFault>
    requires { WholeQuery (statement_tree statement.now) }
    ensures typed { OnOk result (statement_defects tables.now (statement_tree statement.now) ≡ []) }
    ensures query { IfOk result (λ t. tree t.query ≡ answer_tree tables.now (statement_tree statement.now)) }
    ensures names { IfOk result (λ t. t.names.items ≡ answer_names tables.now (statement_tree statement.now)) }
    ensures kinds { IfOk result (λ t. t.kinds.items ≡ answer_kinds tables.now (statement_tree statement.now)) }
    ensures tree_kinds { IfOk result (λ t. kinds_of (map column_kinds (blocks_of tables.now)) (tree t.query) ≡ Some (map data_kind t.kinds.items)) }
    ensures tables { OnOk result (AllByRecursion IsBlockTable (blocks_of tables.now)) }
    ensures refused { IfErr result (λ f. (f ≡ EngineFault.NoMemory) ⊎ IsDefect (statement_defects tables.now (statement_tree statement.now)) f) }
{
    let schemas = match schemas(alloc, tables) {
        Ok(schemas) => schemas,
        Err(NoMemory) => return Err(EngineFault::NoMemory),
    };
    match resolve(alloc, statement, schemas.as_slice()) {
        Ok(typed) => Ok(typed),
        Err(fault) => Err(typing_fault(fault)),
    }
}

/// The names and the kinds of the columns of a typed tree, which is let go.
pub(crate) fn names_and_kinds(typed: Typed) -> (Vec<Word>, Vec<Kind>)
    ensures { (result.0 ≡ typed.names) × (result.1 ≡ typed.kinds) }
{
    (typed.names, typed.kinds)
}

// What a defect of a statement is to the engine.
fn typing_fault(fault: TypingFault) -> EngineFault
    ensures { result ≡ typing_fault_of fault }
{
    match fault {
        TypingFault::UnknownTable(at) => EngineFault::Query(QueryFault::UnknownTable(at)),
        TypingFault::UnknownColumn(at) => EngineFault::Query(QueryFault::UnknownColumn(at)),
        TypingFault::Ambiguous(at) => EngineFault::Query(QueryFault::Ambiguous(at)),
        TypingFault::SameAlias(at) => EngineFault::Query(QueryFault::SameAlias(at)),
        TypingFault::KindMismatch(at) => EngineFault::Query(QueryFault::KindMismatch(at)),
        TypingFault::NotGrouped(at) => EngineFault::Query(QueryFault::NotGrouped(at)),
        TypingFault::MisplacedAggregate(at) => {
            EngineFault::Query(QueryFault::MisplacedAggregate(at))
        }
        TypingFault::MinMaxNeedsGroup(at) => EngineFault::Query(QueryFault::MinMaxNeedsGroup(at)),
        TypingFault::CountOverJoin(at) => EngineFault::Query(QueryFault::CountOverJoin(at)),
        TypingFault::WidthMismatch(at) => EngineFault::Query(QueryFault::WidthMismatch(at)),
        TypingFault::NoMemory => EngineFault::NoMemory,
    }
}
