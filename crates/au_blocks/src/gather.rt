//! The records of a block table, gathered by their labels.
ghost use Rattle.std.specs.Prelude.{◌≡◌, ℕ, ◌++◌, ◌∷◌, [], true, Some, if◌then◌else◌, map, IfOk, IsTrue, OnOk, bytes_eq, nat_lt};
ghost use Rattle.std.specs.List.{list_all, list_any, position_or_len};
ghost use Rattle.indexmap.specs.IndexSet.{insert_key};
ghost use Rattle.au_blocks.specs.Entries.{entry_blocks, has_role, is_absent, role_of};
ghost use Rattle.au_blocks.specs.Headers.{has_blocks};
ghost use Rattle.au_blocks.specs.Labels.{lent_labels};
ghost use Rattle.au_blocks.specs.Order.{Rise, by_numbers, chosen, lent_numbered, lent_records, numbered as numbered_of, of_number};
ghost use Rattle.au_blocks.specs.Tallies.{nothing, tally_of};

use crate::fields::field;
use crate::format::Format;
use crate::role::Role;
use crate::row_faults::role;
use crate::runs::{alternatives_of_runs, runs, tallies_of_runs};
use crate::tally::Tally;
use au_csv::Rec;
use au_value::NoMemory;
use indexmap::IndexSet;
use std::alloc::Global;
use std::hash::Hash;

// What the records of each label amount to, in the order in which the labels come first, and the records that are
// alternatives, block behind block.
pub(crate) fn gather<'a, 'b>(
    alloc: Global,
    format: Format,
    rows: &'a [Rec<'b>],
) -> Result<(Vec<Tally>, Vec<&'a Rec<'b>>), NoMemory>
    requires blocks { has_blocks format ≡ true }
    requires roles { list_all has_role rows.now ≡ true }
    ensures tallies { IfOk result (λ g. g.0.items ≡ map tally_of (entry_blocks format rows.now)) }
    ensures records { IfOk result (λ g. lent_records g.1.items ≡ chosen format rows.now) }
{
    if let Some(found) = runs(alloc, rows)? {
        let tallies = tallies_of_runs(alloc, format, &found)?;
        let records = alternatives_of_runs(alloc, format, &found, rows.len())?;
        return Ok((tallies, records));
    }
    let (tallies, numbered) = gather_scattered(alloc, format, rows)?;
    let records = in_order(alloc, numbered)?;
    Ok((tallies, records))
}

// The same, where the records of a label may stand anywhere. Beside each alternative stands the number of its block.
fn gather_scattered<'a, 'b>(
    alloc: Global,
    format: Format,
    rows: &'a [Rec<'b>],
) -> Result<(Vec<Tally>, Vec<(usize, &'a Rec<'b>)>), NoMemory>
    requires blocks { has_blocks format ≡ true }
    requires roles { list_all has_role rows.now ≡ true }
    ensures tallies { IfOk result (λ g. g.0.items ≡ map tally_of (entry_blocks format rows.now)) }
    ensures records { IfOk result (λ g. lent_numbered g.1.items ≡ numbered_of format rows.now) }
{
    let mut labels = IndexSet::with_capacity(alloc, rows.len())?;
    let mut tallies = Vec::with_capacity(alloc, rows.len())?;
    let mut alternatives = Vec::with_capacity(alloc, rows.len())?;
    let mut recent = 0;
    for number in 0..rows.len() {
        let record = &rows[number];
        let role = role_in(format, record);
        recent = place_near(&mut labels, &mut tallies, field(record, 0), recent)?;
        tallies[recent] = tallies[recent].with(role);
        put(&mut alternatives, role, recent, record)?;
    }
    Ok((tallies, alternatives))
}

// Puts a record of this role behind others, beside the number of its block, if it is an alternative.
fn put<'a, 'b>(
    alternatives: &mut Vec<(usize, &'a Rec<'b>)>,
    role: Role,
    number: usize,
    record: &'a Rec<'b>,
) -> Result<(), NoMemory>
    ensures { OnOk result (lent_numbered alternatives.new.items ≡ lent_numbered alternatives.old.items ++ (if is_absent role then [] else (number, «record».now) ∷ [])) }
{
    if !role.is_absent() {
        alternatives.push((number, record))?;
    }
    Ok(())
}

// The role of a record that has one.
fn role_in(format: Format, record: &Rec<'_>) -> Role
    requires blocks { has_blocks format ≡ true }
    requires role { has_role «record».now ≡ true }
    ensures { role_of format «record».now ≡ Some result }
{
    match role(format, record) {
        Some(role) => role,
        None => unreachable!(),
    }
}

// The place of the block with this label, which is a new one where the label is new. The place that was found last is tried
// first, since the records of a block mostly follow one another.
fn place_near<'a>(
    labels: &mut IndexSet<&'a str>,
    tallies: &mut Vec<Tally>,
    label: &'a str,
    recent: usize,
) -> Result<usize, NoMemory>
    ensures labels { OnOk result (lent_labels labels.new ≡ insert_key bytes_eq (lent_labels labels.old) label.now) }
    ensures tallies { OnOk result (tallies.new.items ≡ tallies.old.items ++ (if list_any (bytes_eq label.now) (lent_labels labels.old) then [] else nothing ∷ [])) }
    ensures place { IfOk result (λ place. place ≡ position_or_len (bytes_eq label.now) (lent_labels labels.old)) }
{
    if stands_at(labels, label, recent) {
        return Ok(recent);
    }
    let at = place_of(labels, tallies, label)?;
    Ok(at)
}

// Whether a label is the one at a place.
fn stands_at(labels: &IndexSet<&str>, label: &str, place: usize) -> bool
    ensures { IsTrue result → (list_any (bytes_eq label.now) (lent_labels labels.now) ≡ true) × (place ≡ position_or_len (bytes_eq label.now) (lent_labels labels.now)) }
{
    let known = labels.as_slice();
    if place < known.len() {
        label == known[place]
    } else {
        false
    }
}

// The place of the block with this label, by its hash.
fn place_of<K: Eq + Hash + Drop>(
    labels: &mut IndexSet<K>,
    tallies: &mut Vec<Tally>,
    label: K,
) -> Result<usize, NoMemory>
    ensures labels { OnOk result (labels.new.keys ≡ insert_key K.eq labels.old.keys label) }
    ensures tallies { OnOk result (tallies.new.items ≡ tallies.old.items ++ (if list_any (K.eq label) labels.old.keys then [] else nothing ∷ [])) }
    ensures place { IfOk result (λ place. place ≡ position_or_len (K.eq label) labels.old.keys) }
{
    let (place, new) = labels.insert_full(label)?;
    if new {
        tallies.push(Tally::nothing())?;
    }
    Ok(place)
}

// The records by the numbers of their blocks.
fn in_order<'a, 'b>(
    alloc: Global,
    numbered: Vec<(usize, &'a Rec<'b>)>,
) -> Result<Vec<&'a Rec<'b>>, NoMemory>
    ensures { IfOk result (λ v. (n : ℕ) → list_all (λ p. nat_lt p.0 n) numbered.entry.items ≡ true → lent_records v.items ≡ by_numbers n (lent_numbered numbered.entry.items)) }
{
    let sorted = sorted(numbered)?;
    taken_apart(alloc, &sorted)
}

// Them by the numbers of their blocks. The sort keeps the order of the records of a block.
fn sorted<'a, 'b>(
    numbered: Vec<(usize, &'a Rec<'b>)>,
) -> Result<Vec<(usize, &'a Rec<'b>)>, NoMemory>
    ensures rise { IfOk result (λ v. Rise v.items) }
    ensures stable { IfOk result (λ v. (k : ℕ) → of_number k v.items ≡ of_number k numbered.entry.items) }
    ensures below { IfOk result (λ v. (n : ℕ) → list_all (λ p. nat_lt p.0 n) numbered.entry.items ≡ true → list_all (λ p. nat_lt p.0 n) v.items ≡ true) }
{
    let mut numbered = numbered;
    numbered.sort_by_key(|record| record.0)?;
    Ok(numbered)
}

// The records without the numbers.
fn taken_apart<'a, 'b>(
    alloc: Global,
    numbered: &[(usize, &'a Rec<'b>)],
) -> Result<Vec<&'a Rec<'b>>, NoMemory>
    ensures { IfOk result (λ v. lent_records v.items ≡ map (λ p. p.1) (lent_numbered numbered.now)) }
{
    let mut records = Vec::with_capacity(alloc, numbered.len())?;
    for place in 0..numbered.len() {
        records.push(numbered[place].1)?;
    }
    Ok(records)
}
