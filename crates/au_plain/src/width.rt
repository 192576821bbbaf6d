//! How many columns the rows of a plan have.
ghost use Rattle.std.specs.Prelude.{◌≡◌, IfSome};
ghost use Rattle.au_plain.specs.Plans.{plan_tree};
ghost use Rattle.au_plain.specs.Widths.{plan_width};

use crate::plan::Plan;

/// How many columns the plan's rows have, if that is a number of this type.
pub fn width_of(plan: &Plan) -> Option<usize>
    ensures { IfSome result (λ w. w ≡ plan_width (plan_tree plan.now)) }
{
    match plan {
        Plan::Scan(_, width) => Some(*width),
        Plan::Rows(width, _) => Some(*width),
        Plan::Extend(_, of) => {
            let width = width_of(of)?;
            width.checked_add(1)
        }
        Plan::Keep(places, _) => Some(places.len()),
        Plan::Filter(_, of) => width_of(of),
        Plan::Join(_, left, right) => {
            let left = width_of(left)?;
            let right = width_of(right)?;
            left.checked_add(right)
        }
        Plan::Union(left, _) => width_of(left),
        Plan::Group(keys, aggs, _) => keys.len().checked_add(aggs.len()),
    }
}
