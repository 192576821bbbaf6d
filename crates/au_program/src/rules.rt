//! By which rules an answer is formed.

/// By which rules products, groups and distinct rows are formed.
#[derive(Clone, Copy, Debug, PartialEq, Eq)]
pub struct Rules {
    /// In how many rows of each side products pair what is possible, if not in all: 1 to 1000.
    pub compress: Option<u32>,

    /// Whether groups and distinct rows are formed by points.
    pub points: bool,
}
