//! The annotations of conditions.
ghost use Rattle.std.specs.Prelude.{◌≡◌};
ghost use Rattle.au_keval.specs.Weights.{truth_count, twice_of, truth_triple, counts_valid, counts_times, pairs_valid, pairs_times, triples_valid, triples_times};

use au_annot::{Annot, Count, Pair, Triple};
use au_expr::{Domain, PlainDomain, RangeDomain, ThreeWay};

/// Annotations that weigh the conditions of a domain: a row's annotation is multiplied by its condition's.
pub trait Weigh<D: Domain>: Annot {
    ghost weight: { D.Truth → Self };

    /// The annotation of a condition with this truth, which is valid.
    fn weight(truth: &D::Truth) -> Self
        requires { D.is_valid truth.now }
        ensures value { result ≡ weight truth.now }
        ensures valid { Self.IsValid result };

    // valid truths weigh what is valid
    ghost weight_valid: { (t : D.Truth) → D.is_valid t → Self.IsValid (weight t) };

    // products of valid annotations are valid
    ghost times_valid: { (a b : Self) → Self.IsValid a → Self.IsValid b → Self.IsValid (Self.times a b) };
}

/// 1 where the condition holds, else 0.
impl Weigh<PlainDomain> for Count {
    ghost weight = { truth_count };

    fn weight(truth: &bool) -> Count {
        zero_or_one(*truth)
    }

    ghost weight_valid = { counts_valid };

    ghost times_valid = { counts_times };
}

/// 1 in every world and in the guess world where the condition holds, else 0 in both.
impl Weigh<PlainDomain> for Pair {
    ghost weight = { twice_of };

    fn weight(truth: &bool) -> Pair {
        if *truth { Pair::one() } else { Pair::zero() }
    }

    ghost weight_valid = { pairs_valid };

    ghost times_valid = { pairs_times };
}

/// 1 or 0 for whether the condition holds certainly, in the guess and possibly.
impl Weigh<RangeDomain> for Triple {
    ghost weight = { truth_triple };

    fn weight(truth: &ThreeWay) -> Triple {
        let least = zero_or_one(truth.least);
        let guess = zero_or_one(truth.guess);
        let most = zero_or_one(truth.most);
        Triple::of(least, guess, most).unwrap()
    }

    ghost weight_valid = { triples_valid };

    ghost times_valid = { triples_times };
}

/// 1 where a test holds, else 0.
pub fn zero_or_one(holds: bool) -> Count
    ensures { result ≡ truth_count holds }
{
    if holds { Count::one() } else { Count::zero() }
}
