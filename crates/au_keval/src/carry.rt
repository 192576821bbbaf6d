//! Maps between two domains and two annotations.
ghost use Rattle.std.specs.Prelude.{◌≡◌};
ghost use Rattle.au_keval.specs.GuessLaws.{guess_cells, guess_kinds, guess_truth, guess_valid, guess_weight, guess_zero, guess_one, guess_plus, guess_times};
ghost use Rattle.au_keval.specs.Homs.{Commutes, KeepsOperation, KeepsCells, KeepsKinds, KeepsTruth, KeepsValid, KeepsWeight, StaysPositive};
ghost use Rattle.au_keval.specs.Reading.{annotations};

use crate::weigh::Weigh;
use au_annot::{Count, Triple};
use au_expr::{Domain, PlainDomain, RangeDomain};

/// A map of cells, truths and annotations, from one domain and annotation to others, that goes along with all that
/// the evaluation of a query does. What it maps to can be evaluated, too. It has no call.
pub trait Carry<D: Domain, K: Weigh<D>, E: Domain, L: Weigh<E>> {
    ghost cell: { D.Cell → E.Cell };

    ghost truth: { D.Truth → E.Truth };

    ghost annot: { K → L };

    // kinds, literals and the operators on cells whose kinds fit
    ghost keeps_cells: { KeepsCells D.is_kind D.operators E.operators cell };

    // the kinds of cells
    ghost keeps_kinds: { KeepsKinds D.is_kind E.is_kind cell };

    // valid annotations
    ghost keeps_valid: { KeepsValid K.IsValid L.IsValid annot };

    // the truths of flags
    ghost keeps_truth: { KeepsTruth D.is_kind D.is_valid D.truth_of E.truth_of cell truth };

    // the weights of valid truths
    ghost keeps_weight: { KeepsWeight D.is_valid K.weight L.weight truth annot };

    ghost keeps_zero: { annot K.zero ≡ L.zero };

    ghost keeps_one: { annot K.one ≡ L.one };

    ghost keeps_plus: { KeepsOperation K.plus L.plus annot };

    ghost keeps_times: { KeepsOperation K.times L.times annot };
}

/// Takes the guess of a range, of a truth and of a triple.
pub struct Guessing;

impl Carry<RangeDomain, Triple, PlainDomain, Count> for Guessing {
    ghost cell = { λ r. r.sg };

    ghost truth = { λ t. t.guess };

    ghost annot = { λ k. k.guess };

    ghost keeps_cells = { guess_cells };

    ghost keeps_kinds = { guess_kinds };

    ghost keeps_valid = { guess_valid };

    ghost keeps_truth = { guess_truth };

    ghost keeps_weight = { guess_weight };

    ghost keeps_zero = { guess_zero };

    ghost keeps_one = { guess_one };

    ghost keeps_plus = { guess_plus };

    ghost keeps_times = { guess_times };
}

/// Mapping the rows of the tables commutes with the evaluation of a query, rows of annotation zero left out on both
/// sides, under the condition of `positive`, which the images of the tables meet, too.
pub fn hom<D: Domain, K: Weigh<D>, E: Domain, L: Weigh<E>, C: Carry<D, K, E, L>>()
    ensures commutes { Commutes D.is_kind K.IsValid D.operators E.operators (annotations K.zero K.one K.plus K.times K.at_most K.weight D.truth_of) (annotations L.zero L.one L.plus L.times L.at_most L.weight E.truth_of) C.cell C.annot }
    ensures evaluates { StaysPositive D.is_kind K.IsValid E.is_kind L.IsValid E.operators (annotations L.zero L.one L.plus L.times L.at_most L.weight E.truth_of) C.cell C.annot }
{}
