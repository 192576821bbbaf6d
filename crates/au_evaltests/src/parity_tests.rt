//! Sums of the even rows and of the odd ones, by pieces that are merged.
ghost use Rattle.std.specs.Prelude.{◌≡◌, ◌^◌, ◌≤◌, MatchResult, refl};
ghost use Rattle.std.proofs.Common.{sym, ◌∙◌};
ghost use Rattle.au_evaltests.specs.Summed.{IsSummed, summed};
ghost use Rattle.au_evaltests.specs.Parities.{AreSums, either_large, term_of, terms};
ghost use Rattle.au_evaltests.specs.ParityLaws.{front_either, back_either};

use crate::sum_tests::joined;
use au_expr::EvalFault;
use au_par::{NoGate, Partial, by_drawing};
use au_value::{Adder, NoMemory};
use std::alloc::Global;
use std::test::Fail;

/// The sum of the even rows and that of the odd ones.
#[derive(Drop)]
struct Sums {
    even: Adder,
    odd: Adder,
}

/// Adds the rows up by whether they are even.
struct ByParity;

// A row that leaves this when it is divided by two, and 0 in the place of another one.
fn term(row: u8, rest: u8) -> i128
    ensures { result ≡ term_of rest row }
{
    if row % 2 == rest { i128::from(row) } else { 0 }
}

// The sum of the rows that leave this.
fn sum_where(rows: &[u8], rest: u8) -> Result<Adder, EvalFault>
    ensures { MatchResult result (λ s. IsSummed s (terms rest rows.now)) (λ f. 2 ^ 127 ≤ (summed (terms rest rows.now)).magnitude) }
{
    let mut sum = Adder::new();
    for row in rows {
        if sum.add(term(*row, rest)).is_err() {
            return Err(EvalFault::Overflow);
        }
    }
    Ok(sum)
}

impl Partial<u8, Sums> for ByParity {
    ghost takes = { λ _ _. Unit {0} };

    ghost stands_for = { λ _ s xs. AreSums s.even s.odd xs };

    ghost overflows = { λ _ xs. either_large xs };

    fn empty(&self, _alloc: Global) -> Result<Sums, NoMemory> {
        Ok(Sums {
            even: Adder::new(),
            odd: Adder::new(),
        })
    }

    fn work(&self, _alloc: Global, rows: &[u8]) -> Result<Sums, EvalFault> {
        let even = sum_where(rows, 0)?;
        let odd = sum_where(rows, 1)?;
        Ok(Sums { even, odd })
    }

    fn merge(&self, _alloc: Global, first: Sums, second: Sums) -> Result<Sums, EvalFault> {
        let even = joined(&first.even, &second.even)?;
        let odd = joined(&first.odd, &second.odd)?;
        Ok(Sums { even, odd })
    }

    ghost one_meaning = { λ _ s t xs zs _ _ a b c. record { even_rows = b.even_rows ∙ (sym a.even_rows ∙ c.even_rows); odd_rows = b.odd_rows ∙ (sym a.odd_rows ∙ c.odd_rows); even_fits = b.even_fits; odd_fits = b.odd_fits } };

    ghost front_overflows = { λ _ xs ys _ _ over. front_either xs ys over };

    ghost back_overflows = { λ _ xs ys _ _ over. back_either xs ys over };

    ghost empty_fits = { λ _. refl };
}

#[test]
fn even_and_odd(rt: HostRuntime) -> Result<(), Fail> {
    let rows = [0u8, 1, 2, 3, 4, 5, 6, 7, 8, 9];
    for workers in [1, 3, 64] {
        let Ok(sums) = by_drawing(&rt, rt.alloc(), &rows, workers, 3, &ByParity, &NoGate) else {
            panic!(rt; "refused")
        };
        let found = (sums.even.total(), sums.odd.total());
        assert_eq!(rt; found, (20, 25), "{workers} workers");
    }
    Ok(())
}
