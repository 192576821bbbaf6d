//! Sums of pieces, which are merged.
ghost use Rattle.std.specs.Prelude.{◌≡◌, ◌+◌, ◌++◌, ◌^◌, ◌<◌, ◌≤◌, ℤ, List, MatchResult, refl, true};
ghost use Rattle.std.proofs.Common.{sym, ◌∙◌};
ghost use Rattle.au_expr.specs.declared.fault.EvalFault.TheVariants as fault;
ghost use Rattle.au_value.specs.Joining.{joined_sum};
ghost use Rattle.au_evaltests.specs.Summed.{IsSummed, summed, too_large};
ghost use Rattle.au_evaltests.specs.SumLaws.{front_large, back_large};

use au_expr::EvalFault;
use au_par::{NoGate, Partial, by_drawing};
use au_value::{Adder, NoMemory};
use std::alloc::Global;
use std::test::Fail;

/// Adds the rows up.
struct Summing;

// The sum with the terms of these rows, too.
fn added(rows: &[i128]) -> Result<Adder, EvalFault>
    ensures { MatchResult result (λ s. IsSummed s rows.now) (λ f. 2 ^ 127 ≤ (summed rows.now).magnitude) }
{
    let mut sum = Adder::new();
    for row in rows {
        if sum.add(*row).is_err() {
            return Err(EvalFault::Overflow);
        }
    }
    Ok(sum)
}

/// The sum of the terms of both.
pub(crate) fn joined(first: &Adder, second: &Adder) -> Result<Adder, EvalFault>
    ensures { (xs ys : List ℤ) → IsSummed first.now xs → IsSummed second.now ys → MatchResult result (λ s. IsSummed s (xs ++ ys)) (λ f. (f ≡ fault.Overflow) × (too_large (xs ++ ys) ≡ true)) }
{
    match first.joined(second) {
        Ok(sum) => Ok(sum),
        Err(_) => Err(EvalFault::Overflow),
    }
}

impl Partial<i128, Adder> for Summing {
    ghost takes = { λ _ _. Unit {0} };

    ghost stands_for = { λ _ state xs. IsSummed state xs };

    ghost overflows = { λ _ xs. too_large xs };

    fn empty(&self, _alloc: Global) -> Result<Adder, NoMemory> {
        Ok(Adder::new())
    }

    fn work(&self, _alloc: Global, rows: &[i128]) -> Result<Adder, EvalFault> {
        added(rows)
    }

    fn merge(&self, _alloc: Global, first: Adder, second: Adder) -> Result<Adder, EvalFault> {
        joined(&first, &second)
    }

    ghost one_meaning = { λ _ s t xs zs _ _ a b c. (b.0 ∙ (sym a.0 ∙ c.0), b.1) };

    ghost front_overflows = { λ _ xs ys _ _ over. front_large xs ys over };

    ghost back_overflows = { λ _ xs ys _ _ over. back_large xs ys over };

    ghost empty_fits = { λ _. refl };
}

#[test]
fn sums_and_overflow(rt: HostRuntime) -> Result<(), Fail> {
    let large = 1i128 << 126;
    let rows: [(&str, &[i128], Option<i128>); 5] = [
        ("no rows", &[], Some(0)),
        ("0 to 9", &[0, 1, 2, 3, 4, 5, 6, 7, 8, 9], Some(45)),
        ("one large", &[large, -5], Some(large - 5)),
        ("two large", &[large, large], None),
        ("two large, by magnitudes", &[large, -large], None),
    ];
    for (what, terms, want) in rows {
        for (workers, piece) in [(1, 1), (2, 1), (3, 3), (64, 3)] {
            let total = match by_drawing(
                &rt,
                rt.alloc(),
                terms,
                workers,
                piece,
                &Summing,
                &NoGate,
            ) {
                Ok(sum) => Some(sum.total()),
                Err(_) => None,
            };
            assert_eq!(rt; total, want, "{what}, {workers} workers, pieces of {piece}");
        }
    }
    Ok(())
}
