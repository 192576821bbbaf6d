//! Select as a plan.
ghost use Rattle.std.specs.Prelude.{◌≡◌, ◌≤◌, ◌+◌, ◌*◌, ◌++◌, ◌∷◌, [], IfOk, map};
ghost use Rattle.au_expr.specs.Terms.{term};
ghost use Rattle.au_plain.specs.PTerms.{pterm};
ghost use Rattle.au_plain.specs.Plans.{plan_tree, extend_all as extended};
ghost use Rattle.au_plain.specs.PlanNumbers.{scans};
ghost use Rattle.au_rwexpr.specs.Cells.{cell_places};
ghost use Rattle.au_rwexpr.specs.Counts.{zero_term};
ghost use Rattle.au_rwexpr.specs.Flatten.{before, flatten};
ghost use Rattle.au_rwcore.specs.Adds.{AddsBySelect};
ghost use Rattle.au_rwcore.specs.Core.{select_plan as selected, weighed};
ghost use Rattle.au_rwcore.specs.Gives.{Selects};

use au_expr::Expr;
use au_plain::{Layout, PExpr, Plan, case, extend, extend_all, filter, keep};
use au_rwexpr::{RangeColumns, behind, push_cells, push_columns, width_of};
use au_value::{NoMemory, Value, beside, both};
use std::alloc::Global;

/// The rows of a plan for which the condition is possible, with the triple multiplied by the condition's.
///
/// The layout is that of the plan's rows, and of the result's. The condition is a flag over their columns. `NoMemory`
/// comes also where a row cannot have so many columns.
#[tactic(auto, using(crate::proofs::Laws::select_scans))]
pub fn select(alloc: Global, of: Plan, condition: &Expr, layout: &Layout) -> Result<Plan, NoMemory>
    ensures plan { IfOk result (λ p. plan_tree p ≡ selected layout.now.columns (term condition.now) (plan_tree of)) }
    ensures gives { IfOk result (λ p. Selects layout.now.columns (term condition.now) (plan_tree of) (plan_tree p)) }
    ensures adds { IfOk result (λ p. AddsBySelect layout.now.columns (term condition.now) (plan_tree of) (plan_tree p)) }
    ensures scans { IfOk result (λ p. scans (plan_tree p) ≤ scans (plan_tree of)) }
{
    let plan = select_plan(alloc, of, condition, layout)?;
    Ok(plan)
}

fn select_plan(alloc: Global, of: Plan, condition: &Expr, layout: &Layout) -> Result<Plan, NoMemory>
    ensures { IfOk result (λ p. plan_tree p ≡ selected layout.now.columns (term condition.now) (plan_tree of)) }
{
    let (steps, of) = beside(condition_steps(alloc, condition, layout), of)?;
    let wide = extend_all(alloc, steps.columns, of)?;
    let possible = filter(alloc, steps.test.hi(), wide)?;
    let weighed = weigh(alloc, steps.test, steps.triple, possible);
    let places = select_places(alloc, layout.columns, steps.test, steps.triple);
    let (places, weighed) = both(places, weighed)?;
    keep(alloc, places, weighed)
}

// The columns of a condition, the place of its own three, and that of the triple.
#[derive(Drop)]
struct ConditionSteps {
    columns: Vec<PExpr>,
    test: RangeColumns,
    triple: RangeColumns,
}

fn condition_steps(
    alloc: Global,
    condition: &Expr,
    layout: &Layout,
) -> Result<ConditionSteps, NoMemory>
    ensures columns { IfOk result (λ s. map pterm s.columns.items ≡ flatten (3 * layout.now.columns + 3) (term condition.now)) }
    ensures test { IfOk result (λ s. s.test.first ≡ 3 * layout.now.columns + 3 + before (term condition.now)) }
    ensures triple { IfOk result (λ s. s.triple.first ≡ 3 * layout.now.columns) }
{
    let width = width_of(layout)?;
    let triple = RangeColumns::at(width - 3)?;
    let mut columns = Vec::new(alloc);
    let test = push_columns(alloc, condition, width, &mut columns)?;
    Ok(ConditionSteps {
        columns,
        test,
        triple,
    })
}

// The plan with least and guess behind its columns, each where the test holds and else 0.
fn weigh(
    alloc: Global,
    test: RangeColumns,
    triple: RangeColumns,
    of: Plan,
) -> Result<Plan, NoMemory>
    ensures { IfOk result (λ p. plan_tree p ≡ extended (weighed test.first triple.first) (plan_tree of)) }
{
    let (least, of) = beside(case(alloc, test.lo(), triple.lo(), zero()), of)?;
    let of = extend(alloc, least, of)?;
    let (guess, of) = beside(case(alloc, test.sg(), triple.sg(), zero()), of)?;
    extend(alloc, guess, of)
}

fn zero() -> PExpr
    ensures { pterm result ≡ zero_term }
{
    PExpr::Literal(Value::Int(0))
}

// The places of the ranges, of the new least and guess, and of most.
fn select_places(
    alloc: Global,
    columns: usize,
    test: RangeColumns,
    triple: RangeColumns,
) -> Result<Vec<usize>, NoMemory>
    requires { triple.first ≡ 3 * columns }
    ensures { IfOk result (λ places. places.items ≡ cell_places 0 columns ++ ((test.first + 3) ∷ (test.first + 3 + 1) ∷ (triple.first + 2) ∷ [])) }
{
    let new = behind(test)?;
    let mut places = Vec::new(alloc);
    push_cells(&mut places, 0, columns)?;
    places.push(new.first)?;
    places.push(new.first + 1)?;
    places.push(triple.first + 2)?;
    Ok(places)
}
