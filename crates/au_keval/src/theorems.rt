//! The laws that link the general reading with that of ranges and of values. Each is the contract of a function that
//! does nothing.
ghost use Rattle.au_keval.specs.Links.{ConditionIsNumbers, ReadingIsBounded, ReadingIsCounted};

/// At ranges and triples the general reading of a typed tree is its bounded relation.
pub fn reading_is_bounded()
    ensures { ReadingIsBounded }
{}

/// At values and counts the general reading is the counted answer.
pub fn reading_is_counted()
    ensures { ReadingIsCounted }
{}

/// At ranges and triples the numbers of a typed tree lie in the range exactly where the general condition holds and the
/// tables' triples lie in it.
pub fn condition_is_numbers()
    ensures { ConditionIsNumbers }
{}
