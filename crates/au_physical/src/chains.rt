//! Plans that work row by row over one table.
ghost use Rattle.std.specs.Prelude.{◌≡◌};
ghost use Rattle.au_physical.specs.Chains.{is_chain as is_chain_of};
ghost use Rattle.au_physical.specs.Physicals.{physical_tree};

use crate::physical::Physical;

/// Whether a plan works row by row over the first table: adds columns, keeps some, or leaves rows out.
pub fn is_chain(plan: &Physical) -> bool
    ensures { result ≡ is_chain_of (physical_tree plan.now) }
{
    match plan {
        Physical::Scan(table, _) => *table == 0,
        Physical::Extend(_, of) => is_chain(of),
        Physical::Keep(_, of) => is_chain(of),
        Physical::Filter(_, of) => is_chain(of),
        Physical::Rows(_, _)
        | Physical::Nested(_, _, _)
        | Physical::Hash(_, _, _, _)
        | Physical::Overlap(_, _, _, _)
        | Physical::Union(_, _)
        | Physical::Group(_, _, _) => false,
    }
}
