//! The laws of bounded answers. Each is the contract of a function that does nothing.
ghost use Rattle.au_algebra.specs.Products.{AnyProduct};
ghost use Rattle.au_algebra.specs.Laws.{AnswerIsBounded, AnswerIsRelation, BoundsUpToOrder, FormsKeepBoth, GuessIsExact, PositiveGuesses};

/// Where each table bounds a list of rows, the bounded relation of a typed tree bounds its ordinary answer.
pub fn answer_is_bounded()
    ensures { AnswerIsBounded }
{}

/// Where each table guesses a list of rows, the bounded relation of a typed tree guesses its ordinary answer.
pub fn guess_is_exact()
    ensures { GuessIsExact }
{}

/// The combined relation and the normal form keep the distribution and the counted guesses.
pub fn forms_keep_both()
    ensures { FormsKeepBoth }
{}

/// The bounded answer of a typed tree has rows of ranges of the tree's kinds.
pub fn answer_is_relation()
    ensures { AnswerIsRelation }
{}

/// Whether a relation bounds a list does not depend on the list's order.
pub fn bounds_up_to_order()
    ensures { BoundsUpToOrder }
{}

/// Taking guesses commutes with the four positive operators, rows of guess 0 left out.
pub fn positive_guesses()
    ensures { PositiveGuesses }
{}

/// A product that keeps what Product keeps may stand in its place: the relation of a typed tree then bounds and guesses
/// its ordinary answer.
pub fn any_product()
    ensures { AnyProduct }
{}
