//! Programs that are run over the blocks of tables.

pub(crate) mod evaluation;
pub(crate) mod finding;
pub(crate) mod guess_plan;
pub(crate) mod guessed;
pub(crate) mod held;
pub(crate) mod input;
pub(crate) mod key_sample;
pub(crate) mod places;
pub(crate) mod reads;
pub(crate) mod running;
pub(crate) mod splitting;
