//! What is read of named tables: their schemas, and their rows as relations.
ghost use Rattle.std.specs.Prelude.{◌≡◌, ◌∷◌, [], IfOk, OnOk, map};
ghost use Rattle.std.specs.List.{AllByRecursion};
ghost use Rattle.au_blocks.specs.Tables.{IsBlockTable};
ghost use Rattle.au_translate.specs.Translate.{bounded_table, guessed_table};
ghost use Rattle.au_typing.specs.Queries.{relations};
ghost use Rattle.au_ua.specs.UaTables.{ua_table as ua_table_of};
ghost use Rattle.au_engine.specs.Answers.{blocks_of, relations_of};

use au_algebra::Rel;
use au_annot::{Count, Pair, Triple};
use au_blocks::{Table, copy_columns};
use au_translate::{bounded, guessed};
use au_typing::Schema;
use au_ua::ua_table;
use au_value::{NoMemory, Range, Value, Word};
use std::alloc::Global;

// The name and the columns of a table.
fn schema(alloc: Global, table: &(Word, Table)) -> Result<Schema, NoMemory>
    ensures relation { IfOk result (λ s. relations (s ∷ []) ≡ relations_of (table.now ∷ [])) }
    ensures table { OnOk result (IsBlockTable table.now.1) }
{
    Ok(Schema {
        name: table.0.copy()?,
        columns: copy_columns(alloc, table.1.columns())?,
    })
}

/// The names and the columns of the tables.
pub(crate) fn schemas(alloc: Global, tables: &[(Word, Table)]) -> Result<Vec<Schema>, NoMemory>
    ensures relations { IfOk result (λ v. relations v.items ≡ relations_of tables.now) }
    ensures tables { OnOk result (AllByRecursion IsBlockTable (blocks_of tables.now)) }
{
    let mut schemas = Vec::new(alloc);
    for table in tables {
        schemas.push(schema(alloc, table)?)?;
    }
    Ok(schemas)
}

/// The tables' bounded relations.
pub(crate) fn bounded_tables(
    alloc: Global,
    tables: &[(Word, Table)],
) -> Result<Vec<Rel<Range, Triple>>, NoMemory>
    ensures rows { IfOk result (λ v. v.items ≡ map bounded_table (blocks_of tables.now)) }
    ensures tables { OnOk result (AllByRecursion IsBlockTable (blocks_of tables.now)) }
{
    let mut relations = Vec::new(alloc);
    for table in tables {
        // Read for the proof alone: the columns and the blocks of a table make one.
        let _columns = table.1.columns();
        relations.push(bounded(alloc, &table.1)?)?;
    }
    Ok(relations)
}

/// The tables' rows in the guess world, each with its number of copies.
pub(crate) fn guessed_tables(
    alloc: Global,
    tables: &[(Word, Table)],
) -> Result<Vec<Rel<Value, Count>>, NoMemory>
    ensures rows { IfOk result (λ v. v.items ≡ map guessed_table (blocks_of tables.now)) }
    ensures tables { OnOk result (AllByRecursion IsBlockTable (blocks_of tables.now)) }
{
    let mut relations = Vec::new(alloc);
    for table in tables {
        // Read for the proof alone: the columns and the blocks of a table make one.
        let _columns = table.1.columns();
        relations.push(guessed(alloc, &table.1)?)?;
    }
    Ok(relations)
}

/// The tables' rows in the guess world, each with a pair of counts.
pub(crate) fn ua_tables(
    alloc: Global,
    tables: &[(Word, Table)],
) -> Result<Vec<Rel<Value, Pair>>, NoMemory>
    ensures rows { IfOk result (λ v. v.items ≡ map ua_table_of (blocks_of tables.now)) }
    ensures tables { OnOk result (AllByRecursion IsBlockTable (blocks_of tables.now)) }
{
    let mut relations = Vec::new(alloc);
    for table in tables {
        // Read for the proof alone: the columns and the blocks of a table make one.
        let _columns = table.1.columns();
        relations.push(ua_table(alloc, &table.1)?)?;
    }
    Ok(relations)
}
