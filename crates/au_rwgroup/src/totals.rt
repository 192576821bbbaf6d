//! Total as a plan.
ghost use Rattle.std.specs.Prelude.{◌≡◌, ◌≤◌, ◌+◌, ◌*◌, ◌++◌, ◌∷◌, [], IfOk, OnOk, length, map, pos, replicate};
ghost use Rattle.au_plain.specs.PTerms.{pterm};
ghost use Rattle.au_plain.specs.PTerms as term;
ghost use Rattle.au_plain.specs.Plans.{plan_tree};
ghost use Rattle.au_plain.specs.Plans as tree;
ghost use Rattle.au_plain.specs.PlanNumbers.{scans};
ghost use Rattle.au_rwexpr.specs.Cells.{run};
ghost use Rattle.au_rwexpr.specs.Counts.{one_term};
ghost use Rattle.au_rwexpr.specs.Flatten.{three};
ghost use Rattle.au_value.specs.declared.value.Value.TheVariants as value;
ghost use Rattle.au_rwgroup.specs.Adds.{AddsByTotal};
ghost use Rattle.au_rwgroup.specs.Gives.{Totals};
ghost use Rattle.au_rwgroup.specs.Totals.{agg_place, sum_terms, sums, total_plan as totalled, total_columns as terms_of, total_sums as sums_of};

use crate::count_terms::{one, signed};
use crate::literal_rows::{one_row, repeated};
use au_algebra::Agg;
use au_combine::{group, push_run};
use au_plain::{Layout, PAgg, PExpr, Plan, extend_all, keep, multiply, union};
use au_rwexpr::{RangeColumns, behind};
use au_value::{NoMemory, Value};
use std::alloc::Global;

/// One row with the sums over all rows of a plan, which stands also where the plan has no rows.
///
/// The layout is that of the plan's rows. Those of the result have a column for each aggregate. `NoMemory` comes also
/// where a row cannot have so many columns.
#[tactic(auto, using(crate::proofs::Laws::total_scans))]
pub fn total(alloc: Global, of: Plan, aggs: &[Agg], layout: &Layout) -> Result<Plan, NoMemory>
    ensures gives { IfOk result (λ p. Totals layout.now.columns aggs.now (plan_tree of) (plan_tree p)) }
    ensures adds { IfOk result (λ p. AddsByTotal layout.now.columns aggs.now (plan_tree of) (plan_tree p)) }
    ensures scans { IfOk result (λ p. scans (plan_tree p) ≤ scans (plan_tree of)) }
{
    let plan = total_plan(alloc, of, aggs, layout.columns)?;
    Ok(plan)
}

fn total_plan(alloc: Global, of: Plan, aggs: &[Agg], columns: usize) -> Result<Plan, NoMemory>
    ensures { IfOk result (λ p. plan_tree p ≡ totalled columns aggs.now (plan_tree of)) }
{
    if aggs.is_empty() {
        row_of_ones(alloc)
    } else {
        sums_plan(alloc, of, aggs, columns)
    }
}

// The triple of one copy, and no columns.
fn row_of_ones(alloc: Global) -> Result<Plan, NoMemory>
    ensures { IfOk result (λ p. plan_tree p ≡ tree.Rows 3 (replicate 3 (value.Int (pos 1)) ∷ [])) }
{
    one_row(alloc, 3, repeated(alloc, &Value::Int(1), 3)?)
}

// The sums over all rows and a row of zeros, with the triple of one copy.
fn sums_plan(alloc: Global, of: Plan, aggs: &[Agg], columns: usize) -> Result<Plan, NoMemory>
    ensures { IfOk result (λ p. plan_tree p ≡ sums columns aggs.now (plan_tree of)) }
{
    let triple = RangeColumns::of(columns)?;
    let added = total_columns(alloc, triple, aggs)?;
    let width = added.len();
    let places = places_behind(alloc, triple, width)?;
    let terms = keep(alloc, places, extend_all(alloc, added, of)?)?;
    let zeros = one_row(alloc, width, repeated(alloc, &Value::Int(0), width)?)?;
    let sums = total_sums(alloc, aggs)?;
    let summed = group(alloc, Vec::new(alloc), sums, union(alloc, zeros, terms)?)?;
    extend_all(alloc, one_copy(alloc)?, summed)
}

// So many places behind the triple.
fn places_behind(alloc: Global, triple: RangeColumns, width: usize) -> Result<Vec<usize>, NoMemory>
    ensures { IfOk result (λ v. v.items ≡ run (triple.first + 3) width) }
{
    let first = behind(triple)?.first;
    let Some(_end) = first.checked_add(width) else {
        return Err(NoMemory);
    };
    let mut places = Vec::new(alloc);
    push_run(&mut places, first, width)?;
    Ok(places)
}

// What a row adds to each sum.
fn total_columns(alloc: Global, triple: RangeColumns, aggs: &[Agg]) -> Result<Vec<PExpr>, NoMemory>
    ensures { IfOk result (λ v. map pterm v.items ≡ terms_of triple.first aggs.now) }
{
    let mut columns = Vec::new(alloc);
    for agg in aggs {
        let own = RangeColumns::of(column_of(agg))?;
        push_terms(alloc, triple, own, &mut columns)?;
    }
    Ok(columns)
}

fn column_of(agg: &Agg) -> usize
    ensures { result ≡ agg_place agg.now }
{
    match agg {
        Agg::Sum(column) | Agg::Min(column) | Agg::Max(column) => *column,
    }
}

// Adds what a row adds to the least, the guess and the greatest of a sum.
fn push_terms(
    alloc: Global,
    triple: RangeColumns,
    own: RangeColumns,
    columns: &mut Vec<PExpr>,
) -> Result<(), NoMemory>
    ensures { OnOk result (map pterm columns.new.items ≡ map pterm columns.old.items ++ sum_terms triple.first own.first) }
{
    columns.push(signed(alloc, triple.hi(), triple.lo(), own.first)?)?;
    columns.push(multiply(alloc, triple.sg(), own.sg())?)?;
    columns.push(signed(alloc, triple.lo(), triple.hi(), own.first + 2)?)?;
    Ok(())
}

// Three sums for each aggregate.
fn total_sums(alloc: Global, aggs: &[Agg]) -> Result<Vec<PAgg>, NoMemory>
    ensures { IfOk result (λ v. v.items ≡ sums_of 0 aggs.now) }
{
    let mut sums = Vec::new(alloc);
    let mut at = RangeColumns::at(0)?;
    for _agg in aggs {
        push_sums(&mut sums, at)?;
        at = behind(at)?;
    }
    Ok(sums)
}

fn push_sums(sums: &mut Vec<PAgg>, of: RangeColumns) -> Result<(), NoMemory>
    ensures { OnOk result (sums.new.items ≡ sums.old.items ++ (PAgg.Sum of.first ∷ PAgg.Sum (of.first + 1) ∷ PAgg.Sum (of.first + 2) ∷ [])) }
{
    sums.push(PAgg::Sum(of.first))?;
    sums.push(PAgg::Sum(of.first + 1))?;
    sums.push(PAgg::Sum(of.first + 2))?;
    Ok(())
}

// The triple of one copy.
fn one_copy(alloc: Global) -> Result<Vec<PExpr>, NoMemory>
    ensures { IfOk result (λ v. map pterm v.items ≡ three one_term one_term one_term) }
{
    let mut triple = Vec::with_capacity(alloc, 3)?;
    triple.push(one())?;
    triple.push(one())?;
    triple.push(one())?;
    Ok(triple)
}
