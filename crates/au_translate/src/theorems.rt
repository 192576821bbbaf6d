//! What the bounded answer says of every world. It is the contract of a function that does nothing.
ghost use Rattle.au_translate.specs.Headline.{BoundedAnswerHolds};

/// The bounded answer of a typed tree, combined or not, bounds the ordinary answer in every world, and guesses it in
/// the guess world.
pub fn bounded_answer_holds()
    ensures { BoundedAnswerHolds }
{}
