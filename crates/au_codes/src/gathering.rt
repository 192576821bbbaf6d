//! The long texts that plans have written out.
ghost use Rattle.std.specs.Prelude.{◌≡◌, OnOk};
ghost use Rattle.au_codes.specs.Gathering.{terms, with_plan, with_term, with_terms};
ghost use Rattle.au_physical.specs.Physicals.{physical_tree};
ghost use Rattle.au_plain.specs.PTerms.{pterm};

use crate::long_texts::LongTexts;
use au_physical::Physical;
use au_plain::PExpr;
use au_value::NoMemory;

/// Adds the long texts of an expression's literals.
#[cycle(gathering)]
pub fn add_expr(texts: &mut LongTexts, tree: &PExpr) -> Result<(), NoMemory>
    ensures { OnOk result (texts.new ≡ with_term texts.old (pterm tree.now)) }
{
    match tree {
        PExpr::Column(_) => Ok(()),
        PExpr::Literal(value) => texts.add(value),
        PExpr::Negate(a) | PExpr::Not(a) => add_expr(texts, a),
        PExpr::Add(a, b)
        | PExpr::Subtract(a, b)
        | PExpr::Multiply(a, b)
        | PExpr::Compare(_, a, b)
        | PExpr::And(a, b)
        | PExpr::Or(a, b) => {
            add_expr(texts, a)?;
            add_expr(texts, b)
        }
        PExpr::Case(c, a, b) => {
            add_expr(texts, c)?;
            add_expr(texts, a)?;
            add_expr(texts, b)
        }
        PExpr::Least(es) => add_exprs(texts, es),
        PExpr::Greatest(es) => add_exprs(texts, es),
    }
}

// Adds those of some expressions.
#[cycle(gathering)]
fn add_exprs(texts: &mut LongTexts, es: &[PExpr]) -> Result<(), NoMemory>
    ensures { OnOk result (texts.new ≡ with_terms texts.old (terms es.now)) }
{
    for e in es {
        add_expr(texts, e)?;
    }
    Ok(())
}

/// Adds the long texts that a plan has written out: those of its literals, and of the rows that it lists.
pub fn add_plan(texts: &mut LongTexts, plan: &Physical) -> Result<(), NoMemory>
    ensures { OnOk result (texts.new ≡ with_plan texts.old (physical_tree plan.now)) }
{
    match plan {
        Physical::Scan(_, _) => Ok(()),
        Physical::Rows(_, rows) => texts.add_rows(rows),
        Physical::Keep(_, of) | Physical::Group(_, _, of) => add_plan(texts, of),
        Physical::Extend(e, of) | Physical::Filter(e, of) => {
            add_expr(texts, e)?;
            add_plan(texts, of)
        }
        Physical::Nested(e, left, right)
        | Physical::Hash(_, e, left, right)
        | Physical::Overlap(_, e, left, right) => {
            add_expr(texts, e)?;
            add_plan(texts, left)?;
            add_plan(texts, right)
        }
        Physical::Union(left, right) => {
            add_plan(texts, left)?;
            add_plan(texts, right)
        }
    }
}
