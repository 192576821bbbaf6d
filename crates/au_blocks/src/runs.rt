//! Records whose labels never descend, cut where the label changes, and what they amount to.
ghost use Rattle.std.specs.Prelude.{◌≡◌, ◌≤◌, ◌++◌, true, filter, flat_map, map, IfOk, IfSome, OnOk};
ghost use Rattle.std.specs.List.{list_all};
ghost use Rattle.au_blocks.specs.Entries.{entries_of, has_role};
ghost use Rattle.au_blocks.specs.Headers.{has_blocks};
ghost use Rattle.au_blocks.specs.Inferring.{is_alternative as is_alternative_of};
ghost use Rattle.au_blocks.specs.Order.{lent_records};
ghost use Rattle.au_blocks.specs.Runs.{by_labels, label_order, lent_runs};
ghost use Rattle.au_blocks.specs.Tallies.{tally_of};

use crate::fields::field;
use crate::format::Format;
use crate::kinds::is_alternative;
use crate::row_faults::role;
use crate::tally::Tally;
use au_csv::Rec;
use au_value::NoMemory;
use std::alloc::Global;
use std::cmp::Ordering;

// The records of each label, or none where a label comes before the one above it. One pass that copies no record.
pub(crate) fn runs<'a, 'b>(
    alloc: Global,
    rows: &'a [Rec<'b>],
) -> Result<Option<Vec<&'a [Rec<'b>]>>, NoMemory>
    ensures { IfOk result (λ found. IfSome found (λ runs. lent_runs runs.items ≡ by_labels rows.now)) }
{
    let mut runs = Vec::with_capacity(alloc, rows.len())?;
    let Some(first) = rows.first() else {
        return Ok(Some(runs));
    };
    let mut last = field(first, 0);
    let mut begun = 0;
    for place in 1..rows.len() {
        let label = field(&rows[place], 0);
        match compare_labels(last, label) {
            Ordering::Less => {
                runs.push(&rows[begun..place])?;
                begun = place;
                last = label;
            }
            Ordering::Equal => {}
            Ordering::Greater => return Ok(None),
        }
    }
    runs.push(&rows[begun..])?;
    Ok(Some(runs))
}

// The order of two labels: a shorter one comes first, as a lesser number does.
pub(crate) fn compare_labels(a: &str, b: &str) -> Ordering
    ensures { result ≡ label_order a.now b.now }
{
    match a.len().cmp(&b.len()) {
        Ordering::Equal => a.cmp(b),
        other => other,
    }
}

// What each run amounts to.
pub(crate) fn tallies_of_runs(
    alloc: Global,
    format: Format,
    runs: &[&[Rec<'_>]],
) -> Result<Vec<Tally>, NoMemory>
    ensures { IfOk result (λ ts. ts.items ≡ map (λ run. tally_of (entries_of format run.now)) runs.now) }
{
    let mut tallies = Vec::with_capacity(alloc, runs.len())?;
    for run in runs {
        tallies.push(tally(format, run))?;
    }
    Ok(tallies)
}

// What the records of a run amount to.
fn tally(format: Format, run: &[Rec<'_>]) -> Tally
    ensures { result ≡ tally_of (entries_of format run.now) }
{
    let mut tally = Tally::nothing();
    for place in 0..run.len() {
        if let Some(role) = role(format, &run[place]) {
            tally = tally.with(role);
        }
    }
    tally
}

// The records that are alternatives, run behind run, of which there are at most so many.
pub(crate) fn alternatives_of_runs<'a, 'b>(
    alloc: Global,
    format: Format,
    runs: &[&'a [Rec<'b>]],
    count: usize,
) -> Result<Vec<&'a Rec<'b>>, NoMemory>
    ensures { IfOk result (λ v. lent_records v.items ≡ flat_map (λ run. filter (is_alternative_of format) run.now) runs.now) }
{
    let mut records = Vec::with_capacity(alloc, count)?;
    for run in runs {
        put_alternatives(format, run, &mut records)?;
    }
    Ok(records)
}

// Puts those of a run behind others.
fn put_alternatives<'a, 'b>(
    format: Format,
    run: &'a [Rec<'b>],
    records: &mut Vec<&'a Rec<'b>>,
) -> Result<(), NoMemory>
    ensures { OnOk result (lent_records records.new.items ≡ lent_records records.old.items ++ filter (is_alternative_of format) run.now) }
{
    for place in 0..run.len() {
        if is_alternative(format, &run[place]) {
            records.push(&run[place])?;
        }
    }
    Ok(())
}
