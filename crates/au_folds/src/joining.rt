//! What is kept of aggregates over some rows, and over those behind them, put together.
ghost use Rattle.std.specs.Prelude.{◌≡◌, true, false, MatchResult, flat_map, length, map};
ghost use Rattle.std.specs.List.{AllByRecursion};
ghost use Rattle.au_expr.specs.Figures.{fit};
ghost use Rattle.au_expr.specs.declared.fault.EvalFault.TheVariants as fault;
ghost use Rattle.au_folds.specs.Held.{kept_in, kept_in_all};
ghost use Rattle.au_folds.specs.Kept.{kept_numbers, kept_values};
ghost use Rattle.au_folds.specs.Merged.{agg_of, joined_all, joined_kept};

use crate::fold::Fold;
use crate::numbers::{improve_all, join_sums};
use au_expr::EvalFault;
use au_value::Extreme;

/// Puts what is kept of each aggregate over other rows to what is held, by the places of their groups.
pub(crate) fn join_all(
    folds: &mut [Fold],
    others: &[Fold],
    places: &[usize],
) -> Result<(), EvalFault>
    requires alike { map agg_of (kept_in_all others.now) ≡ map agg_of (kept_in_all folds.old) }
    requires long { AllByRecursion (λ k. length (kept_values k) ≡ length places.now) (kept_in_all others.now) }
    requires fits { fit (flat_map kept_numbers (kept_in_all folds.old)) ≡ true }
    ensures { MatchResult result (λ _. (kept_in_all folds.new ≡ joined_all places.now (kept_in_all folds.old) (kept_in_all others.now)) × (fit (flat_map kept_numbers (kept_in_all folds.new)) ≡ true)) (λ f. f ≡ fault.Overflow → fit (flat_map kept_numbers (joined_all places.now (kept_in_all folds.old) (kept_in_all others.now))) ≡ false) }
{
    if folds.is_empty() || others.is_empty() {
        return Ok(());
    }
    join(&mut folds[0], &others[0], places)?;
    join_all(&mut folds[1..], &others[1..], places)
}

// The same of one aggregate.
fn join(fold: &mut Fold, other: &Fold, places: &[usize]) -> Result<(), EvalFault>
    requires alike { agg_of (kept_in other.now) ≡ agg_of (kept_in fold.old) }
    requires long { length (kept_values (kept_in other.now)) ≡ length places.now }
    requires fits { fit (kept_numbers (kept_in fold.old)) ≡ true }
    ensures { MatchResult result (λ _. (kept_in fold.new ≡ joined_kept places.now (kept_in fold.old) (kept_in other.now)) × (fit (kept_numbers (kept_in fold.new)) ≡ true)) (λ f. f ≡ fault.Overflow → fit (kept_numbers (joined_kept places.now (kept_in fold.old) (kept_in other.now))) ≡ false) }
{
    match fold {
        Fold::Sum(_, sums) => match other {
            Fold::Sum(_, more) => {
                join_sums(sums, places, more)?;
                Ok(())
            }
            _ => unreachable!(),
        },
        Fold::Least(_, bests) => match other {
            Fold::Least(_, more) => {
                improve_all(Extreme::Least, bests, places, more)?;
                Ok(())
            }
            _ => unreachable!(),
        },
        Fold::Greatest(_, bests) => match other {
            Fold::Greatest(_, more) => {
                improve_all(Extreme::Greatest, bests, places, more)?;
                Ok(())
            }
            _ => unreachable!(),
        },
    }
}
