//! What an annotation is: a commutative semiring with a partial order.
ghost use Rattle.std.specs.Prelude.{◌≡◌, Bool, IsTrue, IsFalse, IsErr, IfOk, ◌↔◌};
ghost use Rattle.au_annot.specs.Annotations.{IsPartialOrder, IsCommutativeSemiring, KeepsOrder, IsLeast, IsRangeTest, IsMonus};

use au_value::Overflow;

/// Annotations of tuples, with the laws of a commutative semiring and of a partial order.
///
/// The members of the same names as the calls are their meanings, which have no bound. Two annotations that are at
/// most each other are equal, and zero is the least: so `a.at_most(A::zero())` tells whether `a` is zero.
pub trait Annot: Copy {
    ghost zero: { Self };

    ghost one: { Self };

    ghost plus: { Self → Self → Self };

    ghost times: { Self → Self → Self };

    ghost at_most: { Self → Self → Bool };

    // whether no component exceeds 2^127-1
    ghost in_range: { Self → Bool };

    // what is true of each annotation, as that its least count is at most its greatest
    ghost IsValid: { Self → Type 0 };

    /// The annotation of a tuple that doesn't occur.
    fn zero() -> Self
        ensures { result ≡ zero };

    /// The annotation of a tuple that occurs once.
    fn one() -> Self
        ensures { result ≡ one };

    /// The sum, for alternative ways to a tuple. `Overflow` comes exactly where a component exceeds 2^127-1.
    fn plus(self, other: Self) -> Result<Self, Overflow>
        ensures value { IfOk result (λ sum. sum ≡ plus self other) }
        ensures overflow { IsErr result ↔ IsFalse (in_range (plus self other)) };

    /// The product, for tuples that are joined. `Overflow` comes exactly where a component exceeds 2^127-1.
    fn times(self, other: Self) -> Result<Self, Overflow>
        ensures value { IfOk result (λ product. product ≡ times self other) }
        ensures overflow { IsErr result ↔ IsFalse (in_range (times self other)) };

    /// Whether this annotation is at most the other.
    fn at_most(self, other: Self) -> bool
        ensures value { result ≡ at_most self other }
        ensures valid { IsValid self × IsValid other };

    ghost order: { IsPartialOrder at_most };

    ghost semiring: { IsCommutativeSemiring zero one plus times };

    ghost plus_keeps: { KeepsOrder at_most plus };

    ghost times_keeps: { KeepsOrder at_most times };

    ghost zero_least: { IsLeast at_most zero };

    ghost range: { IsRangeTest at_most zero one in_range };
}

/// Annotations with a difference that stops at zero.
///
/// Triples have none that serves: see the documentation of `Triple`.
pub trait Monus: Annot {
    ghost monus: { Self → Self → Self };

    /// The least annotation whose sum with the other is at least this one.
    fn monus(self, other: Self) -> Self
        ensures { result ≡ monus self other };

    ghost residual: { IsMonus Self.at_most Self.plus monus };
}
