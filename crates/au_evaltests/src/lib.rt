//! Tests of evaluation: of annotations, operators, plans, indexes, pieces of work and whole queries.
//!
//! It has no code of its own. A test is a table of cases, `GIVEN -> WANTED` on a line each. A row of a relation is written
//! as its ranges, each `lower end/guess/upper end` or one value where it is certain, and least, guess and most of its
//! triple: `1/2/9 4 0/1/1`. Rows stand apart by `;`, and relations by `|`.
//!
//! ```text
//! const COMBINED: &str = "1/2/3 1/1/2; 2/2/9 0/1/1 -> 1/2/9 1/2/3";
//! judge::<Combined>(&rt, rt.alloc(), COMBINED)
//! ```
//!
//! It belongs to docs/ARCHITECTURE.md.
#![tactic(auto)]

#[cfg(test)]
mod annotation_tests;
#[cfg(test)]
mod board_tests;
#[cfg(test)]
mod cases;
#[cfg(test)]
mod compress_tests;
#[cfg(test)]
mod drawing_tests;
#[cfg(test)]
mod form_tests;
#[cfg(test)]
mod gates;
#[cfg(test)]
mod halving_tests;
#[cfg(test)]
mod index_tests;
#[cfg(test)]
mod operator_tests;
#[cfg(test)]
mod parity_tests;
#[cfg(test)]
mod physical_tests;
#[cfg(test)]
mod plan_tests;
#[cfg(test)]
mod points_tests;
#[cfg(test)]
mod query_tables;
#[cfg(test)]
mod query_tests;
#[cfg(test)]
mod relations;
#[cfg(test)]
mod road_tests;
#[cfg(test)]
mod row_texts;
#[cfg(test)]
mod sum_tests;
#[cfg(test)]
mod ua_tests;
#[cfg(test)]
mod worker_tests;
