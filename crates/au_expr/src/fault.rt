//! Why an expression has no value.
ghost use Rattle.std.specs.Prelude.{◌≡◌};
ghost use Rattle.au_expr.specs.declared.fault.EvalFault.{EvalFault};
ghost use Rattle.au_expr.specs.declared.fault.EvalFault.TheVariants as fault;

use au_value::{NoMemory, Overflow};
use thiserror::Error;

/// Why an expression has no value on a row.
#[derive(Clone, Copy, Debug, PartialEq, Eq, Error)]
pub enum EvalFault {
    /// A number of a subexpression, or one that a product is chosen from, leaves -2^127 to 2^127-1.
    #[error("a number of the expression leaves 128 bits")]
    Overflow,
    /// An allocation was refused.
    #[error("out of memory")]
    NoMemory,
}

impl From<Overflow> for EvalFault {
    ghost from_gives = { λ _ e. e ≡ fault.Overflow };

    fn from(_: Overflow) -> EvalFault {
        EvalFault::Overflow
    }
}

impl From<NoMemory> for EvalFault {
    ghost from_gives = { λ _ e. e ≡ fault.NoMemory };

    fn from(_: NoMemory) -> EvalFault {
        EvalFault::NoMemory
    }
}
