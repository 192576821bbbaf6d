//! What is handed to people and to other engines: programs as lines, the one plan of a query and encoded tables as texts, and plans that are read back and run.

pub(crate) mod explaining;
pub(crate) mod plain;
pub(crate) mod program_lines;
pub(crate) mod texts;
