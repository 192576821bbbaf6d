//! The answers of the commands: of `answer`, of the definitions' road, of the guess world, and with certain counts.

pub(crate) mod answering;
pub(crate) mod certainty;
pub(crate) mod coded_answer;
pub(crate) mod counted;
pub(crate) mod guess_rows;
pub(crate) mod guess_size;
pub(crate) mod guessing;
pub(crate) mod ordered;
pub(crate) mod tables;
