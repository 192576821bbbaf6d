//! Scans of a table of which a plan reads only some columns.
ghost use Rattle.std.specs.Prelude.{◌≡◌, IfOk, MatchOption, option_map};
ghost use Rattle.au_plan.specs.Narrowing.{Narrows};
ghost use Rattle.au_plan.specs.TableScans as scans;
ghost use Rattle.au_physical.specs.Physicals.{physical_tree};

use au_physical::Physical;
use au_value::NoMemory;
use std::alloc::Global;

/// Where each Scan of a table stands right below a Keep of one and the same list of places, and there is such a Scan:
/// these places. The plan then scans, in place of each such Keep, the table's rows that hold just these columns. Else
/// nothing, and the plan stays as it is.
pub fn narrow_scans(
    alloc: Global,
    plan: &mut Physical,
    table: usize,
) -> Result<Option<Vec<usize>>, NoMemory>
    ensures { IfOk result (λ places. MatchOption places (physical_tree plan.new ≡ physical_tree plan.old) (λ ps. Narrows table ps.items (physical_tree plan.old) (physical_tree plan.new))) }
{
    let Some(places) = first_places(plan, table) else {
        return Ok(None);
    };
    if !reads(plan, table, places) {
        return Ok(None);
    }
    let places = Vec::from_slice(alloc, places)?;
    narrow(plan, table, places.len());
    Ok(Some(places))
}

// The places of the first Keep right above a Scan of the table.
fn first_places<'a>(plan: &'a Physical, table: usize) -> Option<&'a [usize]>
    ensures { option_map (λ places. places.now) result ≡ scans.first_places table (physical_tree plan.now) }
{
    match plan {
        Physical::Scan(_, _) | Physical::Rows(_, _) => None,
        Physical::Keep(places, of) => {
            if is_scan(of, table) {
                Some(places)
            } else {
                first_places(of, table)
            }
        }
        Physical::Extend(_, of) | Physical::Filter(_, of) | Physical::Group(_, _, of) => {
            first_places(of, table)
        }
        Physical::Nested(_, left, right)
        | Physical::Hash(_, _, left, right)
        | Physical::Overlap(_, _, left, right)
        | Physical::Union(left, right) => match first_places(left, table) {
            Some(places) => Some(places),
            None => first_places(right, table),
        },
    }
}

// Whether each Scan of the table stands right below a Keep of these places.
fn reads(plan: &Physical, table: usize, places: &[usize]) -> bool
    ensures { result ≡ scans.reads table places.now (physical_tree plan.now) }
{
    match plan {
        Physical::Scan(of, _) => *of != table,
        Physical::Rows(_, _) => true,
        Physical::Keep(own, of) => {
            if is_scan(of, table) {
                **own == *places
            } else {
                reads(of, table, places)
            }
        }
        Physical::Extend(_, of) | Physical::Filter(_, of) | Physical::Group(_, _, of) => {
            reads(of, table, places)
        }
        Physical::Nested(_, left, right)
        | Physical::Hash(_, _, left, right)
        | Physical::Overlap(_, _, left, right)
        | Physical::Union(left, right) => {
            reads(left, table, places) && reads(right, table, places)
        }
    }
}

// Whether the plan is a Scan of the table.
fn is_scan(plan: &Physical, table: usize) -> bool
    ensures { result ≡ scans.is_scan table (physical_tree plan.now) }
{
    match plan {
        Physical::Scan(of, _) => *of == table,
        _ => false,
    }
}

// Puts a Scan of the table, of this width, in place of each Keep right above one.
fn narrow(plan: &mut Physical, table: usize, width: usize)
    ensures { physical_tree plan.new ≡ scans.narrowed table width (physical_tree plan.old) }
{
    match plan {
        Physical::Scan(_, _) | Physical::Rows(_, _) => (),
        Physical::Keep(_, of) => {
            if is_scan(of, table) {
                *plan = Physical::Scan(table, width);
            } else {
                narrow(of, table, width);
            }
        }
        Physical::Extend(_, of) => narrow(of, table, width),
        Physical::Filter(_, of) => narrow(of, table, width),
        Physical::Nested(_, left, right) => {
            narrow(left, table, width);
            narrow(right, table, width)
        }
        Physical::Hash(_, _, left, right) => {
            narrow(left, table, width);
            narrow(right, table, width)
        }
        Physical::Overlap(_, _, left, right) => {
            narrow(left, table, width);
            narrow(right, table, width)
        }
        Physical::Union(left, right) => {
            narrow(left, table, width);
            narrow(right, table, width)
        }
        Physical::Group(_, _, of) => narrow(of, table, width),
    }
}
