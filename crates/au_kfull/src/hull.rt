//! Hulls of rows of ranges.
ghost use Rattle.std.specs.Prelude.{◌≡◌, ◌∷◌, IfOk, List, map};
ghost use Rattle.au_value.specs.declared.kinds.Kind.{Kind};
ghost use Rattle.au_value.specs.Ranges.{hulls as hulls_of};
ghost use Rattle.au_algebra.specs.Bounded.{hull_of as hull_over};
ghost use Rattle.au_kfull.specs.Keys.{keys_of as the_keys, kinds, HasKinds};

use crate::keys::{Keys, keys_of};
use crate::tuple::Tuple;
use au_annot::Triple;
use au_expr::{Domain, RangeDomain};
use au_value::{NoMemory, Range};
use std::alloc::Global;

// Copies of some ranges.
fn copies(alloc: Global, cells: &[Range]) -> Result<Vec<Range>, NoMemory>
    ensures { IfOk result (λ v. v.items ≡ cells.now) }
{
    let mut copies = Vec::new(alloc);
    for cell in cells {
        copies.push(RangeDomain::copy(cell)?)?;
    }
    Ok(copies)
}

// The hulls of two rows, column by column.
fn hulls(alloc: Global, a: &[Range], b: &[Range]) -> Result<Vec<Range>, NoMemory>
    requires { kinds a.now ≡ kinds b.now }
    ensures { IfOk result (λ v. v.items ≡ hulls_of a.now b.now) }
{
    let mut hulls = Vec::new(alloc);
    let mut left = a;
    let mut right = b;
    while let Some((x, xs)) = left.split_first() {
        let Some((y, ys)) = right.split_first() else {
            return Ok(hulls);
        };
        hulls.push(x.hull(y)?)?;
        left = xs;
        right = ys;
    }
    Ok(hulls)
}

// The hulls of the keys of several rows, with the guesses of the first.
fn hull_from(
    alloc: Global,
    keys: Keys,
    first: &[Range],
    others: &[Tuple<'_, Range, Triple>],
) -> Result<Vec<Range>, NoMemory>
    requires { HasKinds (kinds first.now) others.now }
    ensures { IfOk result (λ v. v.items ≡ hull_over (the_keys keys first.now ∷ map (λ r. the_keys keys r.cells) others.now)) }
{
    let mut hull = copies(alloc, keys_of(keys, first))?;
    for row in others {
        hull = hulls(alloc, &hull, keys_of(keys, row.cells()))?;
    }
    Ok(hull)
}

/// The hulls of the keys of several rows, with the guesses of the first.
pub(crate) fn hull_of(
    alloc: Global,
    keys: Keys,
    rows: &[Tuple<'_, Range, Triple>],
) -> Result<Vec<Range>, NoMemory>
    requires { (ks : List Kind) × HasKinds ks rows.now }
    ensures { IfOk result (λ v. v.items ≡ hull_over (map (λ r. the_keys keys r.cells) rows.now)) }
{
    let Some((first, others)) = rows.split_first() else {
        return Ok(Vec::new(alloc));
    };
    hull_from(alloc, keys, first.cells(), others)
}
