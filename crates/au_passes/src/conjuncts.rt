//! The conjuncts of a condition, taken apart and put together.
ghost use Rattle.std.specs.Prelude.{◌≡◌, ◌++◌, [], IfOk, OnOk, map, option_map};
ghost use Rattle.au_plain.specs.PTerms.{pterm};
ghost use Rattle.au_passes.specs.Conditions.{and_all, and_more as more, condition, conjuncts};

use au_plain::{PExpr, and};
use au_value::{NoMemory, Value};
use std::alloc::Global;

/// The conjuncts of the condition, from left to right, behind others. TRUE has none.
pub fn push_conjuncts(e: PExpr, into: &mut Vec<PExpr>) -> Result<(), NoMemory>
    ensures { OnOk result (map pterm into.new.items ≡ map pterm into.old.items ++ conjuncts (pterm e)) }
{
    match e {
        PExpr::And(a, b) => {
            push_conjuncts(Box::into_inner(a), into)?;
            push_conjuncts(Box::into_inner(b), into)
        }
        PExpr::Literal(Value::Flag(true)) => Ok(()),
        other => Ok(into.push(other)?),
    }
}

/// The condition that all of them are true.
pub fn condition_of(alloc: Global, all: Vec<PExpr>) -> Result<PExpr, NoMemory>
    ensures { IfOk result (λ e. pterm e ≡ condition (map pterm all.items)) }
{
    let mut so_far = None;
    for e in all {
        so_far = Some(and_more(alloc, so_far, e)?);
    }
    Ok(or_true(so_far))
}

// One conjunct more.
fn and_more(alloc: Global, so_far: Option<PExpr>, e: PExpr) -> Result<PExpr, NoMemory>
    ensures { IfOk result (λ both. pterm both ≡ more (option_map pterm so_far) (pterm e)) }
{
    let Some(before) = so_far else {
        return Ok(e);
    };
    and(alloc, before, e)
}

// TRUE, where there is no conjunct.
fn or_true(e: Option<PExpr>) -> PExpr
    ensures { pterm result ≡ and_all (option_map pterm e) [] }
{
    match e {
        Some(e) => e,
        None => PExpr::Literal(Value::Flag(true)),
    }
}
