//! The places in the rows of the groupings of Group.
ghost use Rattle.std.specs.Prelude.{◌≡◌, ◌+◌, ◌*◌, ◌<◌, ◌^◌, IfOk};
ghost use Rattle.au_rwgroup.specs.Folds.{fold_width};

use crate::joined_row::JoinedRow;
use crate::result_columns::GroupTests;
use au_rwexpr::{RangeColumns, behind};
use au_value::NoMemory;

/// Where the triple of a group stands, the row of the join, and the count of rows that are surely there, behind four
/// results for each of so many aggregates.
#[derive(Clone, Copy)]
pub(crate) struct GroupPlaces {
    pub triple: RangeColumns,
    pub joined: JoinedRow,
    pub there: usize,
    pub aggs: usize,
    ghost values: { joined.fold + 3 * joined.keys + 2 + 5 * aggs < 2 ^ 64 },
    ghost members: { joined.tests + 4 + 4 * aggs < 2 ^ 64 },
    ghost results: { there + 1 + 3 * aggs < 2 ^ 64 },
}

impl GroupPlaces {
    /// The places for so many keys, kept columns and aggregates. `NoMemory` comes where a row cannot have so many
    /// columns.
    pub(crate) fn of(keys: usize, kept: usize, aggs: usize) -> Result<GroupPlaces, NoMemory>
        ensures triple { IfOk result (λ g. g.triple.first ≡ 3 * keys) }
        ensures keys { IfOk result (λ g. g.joined.keys ≡ keys) }
        ensures fold { IfOk result (λ g. g.joined.fold ≡ 3 * keys + 3 + kept) }
        ensures tests { IfOk result (λ g. g.joined.tests ≡ 3 * keys + 3 + kept + fold_width keys aggs) }
        ensures there { IfOk result (λ g. g.there ≡ 3 * keys + 3 + kept + 4 * aggs) }
        ensures aggs { IfOk result (λ g. g.aggs ≡ aggs) }
    {
        let triple = RangeColumns::of(keys)?;
        let first = behind(triple)?;
        let Some(width) = first.first.checked_add(kept) else {
            return Err(NoMemory);
        };
        let joined = JoinedRow::of(keys, width, aggs)?;
        let Some(four_each) = aggs.checked_mul(4) else {
            return Err(NoMemory);
        };
        let Some(_members) = joined.behind_tests().checked_add(four_each) else {
            return Err(NoMemory);
        };
        let there = width + four_each;
        let Some(_results) = (there + 1).checked_add(four_each) else {
            return Err(NoMemory);
        };
        Ok(GroupPlaces {
            triple,
            joined,
            there,
            aggs,
        })
    }

    /// What tells of a group that a row is surely there, and how many copies it has in the guess world.
    pub(crate) fn tests(self) -> GroupTests
        ensures there { result.there ≡ self.there }
        ensures guess { result.guess ≡ self.triple.first + 1 }
    {
        GroupTests {
            there: self.there,
            guess: self.triple.first + 1,
        }
    }
}
