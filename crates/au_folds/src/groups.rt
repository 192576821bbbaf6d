//! Groups of rows by key columns.
ghost use Rattle.std.specs.Prelude.{◌≡◌, IfOk};
ghost use Rattle.au_folds.specs.Grouped.{Grows, IsGrouped};
ghost use Rattle.au_folds.specs.Held.{held_table};
ghost use Rattle.au_folds.specs.Merged.{Alike, Merges};
ghost use Rattle.au_folds.specs.Tables.{IsTable, empty_table, finished};

use crate::fold::{Fold, nothing, put_all};
use crate::joining::join_all;
use crate::results::{key_rows, with_values};
use crate::seen::{Seen, key_set_places, nothing_seen, row_places};
use au_columns::Batch;
use au_expr::EvalFault;
use au_plain::PAgg;
use au_value::NoMemory;
use std::alloc::Global;
use std::marker::Model;

/// The groups of the rows that were added, of which none is kept. Contracts see the table: each key once, in the order in
/// which keys come first, and what is kept of each aggregate.
#[derive(Drop)]
pub struct Groups {
    seen: Seen,
    folds: Vec<Fold>,
}

impl Model for Groups {
    ghost use Rattle.au_folds.specs.Held.{held_table};
    ghost use Rattle.au_folds.specs.Tables.{IsTable, Table};

    ghost Value = { Table };

    ghost view = { λ g. held_table g.seen g.folds.items };

    ghost invariant = { λ g. IsTable (held_table g.seen g.folds.items) };
}

impl Groups {
    /// The groups of no rows, by these key columns and with these aggregates.
    pub fn new(alloc: Global, keys: &[usize], aggs: &[PAgg]) -> Result<Groups, NoMemory>
        ensures { IfOk result (λ g. g ≡ empty_table keys.now aggs.now) }
    {
        let seen = nothing_seen(alloc, keys)?;
        let folds = nothing(alloc, aggs)?;
        Ok(Groups { seen, folds })
    }

    /// Adds rows behind those before.
    ///
    /// `Overflow` comes only where the magnitudes of a sum's terms, added, leave 128 bits.
    pub fn add(self, alloc: Global, rows: &Batch) -> Result<Groups, EvalFault>
        ensures { Grows self rows.now result }
    {
        let Groups { seen, folds } = self;
        let mut seen = seen;
        let mut folds = folds;
        let places = row_places(alloc, &mut seen, rows)?;
        put_all(alloc, &mut folds, &places, rows)?;
        Ok(Groups { seen, folds })
    }

    /// Puts the groups of rows behind those before, by the same key columns and with the same aggregates, to these.
    ///
    /// `Overflow` comes only where the magnitudes of a sum's terms, added, leave 128 bits.
    pub fn merge(self, alloc: Global, second: Groups) -> Result<Groups, EvalFault>
        requires { Alike self second }
        ensures { Merges self second result }
    {
        let keys = key_rows(alloc, &second.seen)?;
        let Groups { seen, folds } = self;
        let mut seen = seen;
        let mut folds = folds;
        let places = key_set_places(alloc, &mut seen, &keys)?;
        join_all(&mut folds, &second.folds, &places)?;
        Ok(Groups { seen, folds })
    }

    /// The row of each group: its key, and then its aggregates.
    pub fn finish(self, alloc: Global) -> Result<Batch, NoMemory>
        ensures { IfOk result (λ b. b ≡ finished self) }
    {
        let rows = key_rows(alloc, &self.seen)?;
        let made = with_values(alloc, rows, &self.folds)?;
        Ok(made)
    }
}

/// One row for each list of cells in the key columns, in the order in which they are first seen: the key, and then the
/// aggregates over the rows that have it.
///
/// `Overflow` comes only where the magnitudes of a sum's terms, added, leave 128 bits.
pub fn grouped(
    alloc: Global,
    keys: &[usize],
    aggs: &[PAgg],
    rows: &Batch,
) -> Result<Batch, EvalFault>
    ensures { IsGrouped keys.now aggs.now rows.now result }
{
    let groups = Groups::new(alloc, keys, aggs)?;
    let groups = groups.add(alloc, rows)?;
    let made = groups.finish(alloc)?;
    Ok(made)
}
