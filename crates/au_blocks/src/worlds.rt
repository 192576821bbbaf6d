//! What holds of the worlds of block tables. Each law is the contract of a function that does nothing.
ghost use Rattle.au_blocks.specs.WorldLaws.{GuessWorldIsWorld, OrdersHaveTwoWorlds};

/// The guess world of block tables is one of their worlds. So block tables have a world, and what holds in each of their
/// worlds is said of one at least.
pub fn guess_world_is_world()
    ensures { GuessWorldIsWorld }
{}

/// A table may have several worlds: the one of the orders has two with different rows.
pub fn orders_have_two_worlds()
    ensures { OrdersHaveTwoWorlds }
{}
