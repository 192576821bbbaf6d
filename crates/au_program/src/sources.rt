//! What plans read, before it is there: tables, what the plans of earlier steps find, and the parts of products that are
//! compressed.
//!
//! A program is made of a query and of schemas alone. Where a plan is to read what another plan finds, that one stands among
//! its sources, with sources of its own.
use au_physical::Physical;

/// How the rows of a step are found over its sources.
#[derive(Drop)]
pub enum Ways {
    /// By this plan.
    Plan(Physical),
    /// By the first plan where so many leading columns of the last source repeat, else by the second one, which gives the same.
    ByKeys(usize, Physical, Physical),
}

/// The plans of both sides of a product that is compressed.
#[derive(Drop)]
pub struct Pairing {
    /// That of the left side.
    pub left: Physical,
    /// How many columns its rows have when they are decoded.
    pub left_columns: usize,
    /// That of the right side.
    pub right: Physical,
    /// How many columns its rows have when they are decoded.
    pub right_columns: usize,
    /// In how many rows of each side is put what is possible of it.
    pub size: u32,
}

/// The sources of a plan, in the order of its tables.
#[derive(Drop)]
pub enum Sources {
    /// None.
    Nothing,
    /// Those, then the table at this place: the encoded columns in these places, or all.
    Table(Box<Sources>, usize, Option<Vec<usize>>),
    /// Those, then what is found over the second ones.
    Step(Box<Sources>, Box<Sources>, Ways),
    /// Those, then of what two plans find, the left one over the second and the right one over the third sources, the
    /// guesses of the left and of the right side, and what is possible of the left and of the right side.
    Pairs(Box<Sources>, Box<Sources>, Box<Sources>, Pairing),
}
