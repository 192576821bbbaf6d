//! Physical plans as lines, written behind a text.
ghost use Rattle.std.specs.Prelude.{◌≡◌, ◌++◌, OnOk, string_bytes};
ghost use Rattle.au_physical.specs.Physicals.{physical_tree};
ghost use Rattle.au_explain.specs.Lines.{line, operator_text, plan_lines};

use crate::margin::push_margin;
use crate::operators::push_operator;
use crate::width::sum;
use au_physical::Physical;
use au_value::NoMemory;

// The line of the operator at the top of a plan.
fn push_line(out: &mut String, depth: usize, plan: &Physical) -> Result<(), NoMemory>
    ensures { OnOk result (string_bytes out.new ≡ string_bytes out.old ++ line depth (operator_text (physical_tree plan.now))) }
{
    push_margin(out, depth)?;
    push_operator(out, plan)?;
    out.push_str("\n")?;
    Ok(())
}

/// A plan: the line of each operator, so many levels to the right, and below it the lines of what it reads.
pub fn push_plan(out: &mut String, depth: usize, plan: &Physical) -> Result<(), NoMemory>
    ensures { OnOk result (string_bytes out.new ≡ string_bytes out.old ++ plan_lines depth (physical_tree plan.now)) }
{
    push_line(out, depth, plan)?;
    match plan {
        Physical::Scan(_, _) | Physical::Rows(_, _) => Ok(()),
        Physical::Extend(_, of)
        | Physical::Keep(_, of)
        | Physical::Filter(_, of)
        | Physical::Group(_, _, of) => push_plan(out, depth, of),
        Physical::Nested(_, left, right)
        | Physical::Hash(_, _, left, right)
        | Physical::Overlap(_, _, left, right)
        | Physical::Union(left, right) => {
            let deeper = sum(depth, 1)?;
            push_plan(out, deeper, left)?;
            push_plan(out, deeper, right)
        }
    }
}
