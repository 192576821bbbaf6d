//! The law of well-typed statements. It is the contract of a function that does nothing.
ghost use Rattle.au_typing.specs.Laws.{TreeIsTyped};

/// The tree of a statement in which nothing is wrong is typed, with exactly the kinds that are named.
pub fn tree_is_typed()
    ensures { TreeIsTyped }
{}
