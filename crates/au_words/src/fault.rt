//! What is wrong with the words of a command line.

use thiserror::Error;

/// Why the words of a command line are refused. Table words are numbered from 0.
#[derive(Clone, Copy, Debug, PartialEq, Eq, Error)]
pub enum UsageFault {
    /// The words are not of the program's form.
    #[error("the words are not of the program's form")]
    Words,

    /// This table word is the first that is not NAME=PATH, with a nonempty name and a nonempty path.
    #[error("table word {0} is not NAME=PATH")]
    BadTable(usize),

    /// These two table words have names that are equal ignoring ASCII case. The second is the least such.
    #[error("table words {0} and {1} have one name")]
    SameTable(usize, usize),
}
