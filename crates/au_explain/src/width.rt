//! How many columns physical plans have.
ghost use Rattle.std.specs.Prelude.{◌≡◌, ◌+◌, IfOk};
ghost use Rattle.au_physical.specs.Physicals.{physical_tree};
ghost use Rattle.au_explain.specs.Lines.{width as width_of};

use au_physical::Physical;
use au_value::NoMemory;

/// The sum of two numbers, of columns or of levels.
pub fn sum(a: usize, b: usize) -> Result<usize, NoMemory>
    ensures { IfOk result (λ n. n ≡ a + b) }
{
    match a.checked_add(b) {
        Some(n) => Ok(n),
        None => Err(NoMemory),
    }
}

/// How many columns a plan has. A plan of more columns than a usize holds has no text that fits in memory.
pub fn width(plan: &Physical) -> Result<usize, NoMemory>
    ensures { IfOk result (λ n. n ≡ width_of (physical_tree plan.now)) }
{
    match plan {
        Physical::Scan(_, n) | Physical::Rows(n, _) => Ok(*n),
        Physical::Extend(_, p) => sum(width(p)?, 1),
        Physical::Keep(places, _) => Ok(places.len()),
        Physical::Filter(_, p) => width(p),
        Physical::Nested(_, p, q) | Physical::Hash(_, _, p, q) | Physical::Overlap(_, _, p, q) => {
            sum(width(p)?, width(q)?)
        }
        Physical::Union(p, _) => width(p),
        Physical::Group(keys, aggs, _) => sum(keys.len(), aggs.len()),
    }
}
