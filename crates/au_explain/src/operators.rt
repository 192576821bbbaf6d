//! The operators of physical plans, written behind a text.
ghost use Rattle.std.specs.Prelude.{◌≡◌, ◌++◌, None, OnOk, codes, decimal, map, string_bytes};
ghost use Rattle.au_plain.specs.PTerms.{pterm};
ghost use Rattle.au_physical.specs.Physicals.{physical_tree};
ghost use Rattle.au_sqltext.specs.Texts.{aggregate_text, behind_commas, column_text, listed, term_text};
ghost use Rattle.au_explain.specs.Lines.{aggregates_text, always as always_of, equal_text, extend_text, keys_text, operator_text, overlap_text, range_text, rest_text, width as width_of};

use crate::width::width;
use au_physical::{Bounds, Physical};
use au_plain::{PAgg, PExpr};
use au_sqltext::{push_aggregate, push_column, push_columns_at, push_number, push_term};
use au_value::{NoMemory, Value};

// A column of a side of a join.
fn push_side(out: &mut String, side: &str, i: usize) -> Result<(), NoMemory>
    ensures { OnOk result (string_bytes out.new ≡ string_bytes out.old ++ (side.now ++ column_text i)) }
{
    out.push_str(side)?;
    push_column(out, i)
}

// Two columns that are to be equal.
fn push_equal(out: &mut String, places: (usize, usize)) -> Result<(), NoMemory>
    ensures { OnOk result (string_bytes out.new ≡ string_bytes out.old ++ equal_text places) }
{
    push_side(out, "x.", places.0)?;
    out.push_str(" = ")?;
    push_side(out, "y.", places.1)
}

// Pairs of columns that are to be equal, each behind a comma.
fn push_other_equal(out: &mut String, places: &[(usize, usize)]) -> Result<(), NoMemory>
    ensures { OnOk result (string_bytes out.new ≡ string_bytes out.old ++ behind_commas (map equal_text places.now)) }
{
    for pair in places {
        out.push_str(", ")?;
        push_equal(out, *pair)?;
    }
    Ok(())
}

// Pairs of columns that are to be equal, between commas.
fn push_all_equal(out: &mut String, places: &[(usize, usize)]) -> Result<(), NoMemory>
    ensures { OnOk result (string_bytes out.new ≡ string_bytes out.old ++ listed (map equal_text places.now)) }
{
    match places.split_first() {
        Some((first, others)) => {
            push_equal(out, *first)?;
            push_other_equal(out, others)
        }
        None => Ok(()),
    }
}

// The two ends of a range of a side.
fn push_range(out: &mut String, side: &str, lo: usize, hi: usize) -> Result<(), NoMemory>
    ensures { OnOk result (string_bytes out.new ≡ string_bytes out.old ++ range_text side.now lo hi) }
{
    push_side(out, side, lo)?;
    out.push_str("..")?;
    push_side(out, side, hi)
}

// Two ranges that are to overlap.
fn push_overlap(out: &mut String, at: Bounds) -> Result<(), NoMemory>
    ensures { OnOk result (string_bytes out.new ≡ string_bytes out.old ++ overlap_text at) }
{
    push_range(out, "x.", at.left_lo, at.left_hi)?;
    out.push_str(" overlapping ")?;
    push_range(out, "y.", at.right_lo, at.right_hi)?;
    Ok(())
}

// Whether an expression is TRUE as it stands.
fn always(e: &PExpr) -> bool
    ensures { result ≡ always_of (pterm e.now) }
{
    match e {
        PExpr::Literal(Value::Flag(holds)) => *holds,
        _ => false,
    }
}

// The rest of the condition of a join, over its left side.
fn push_rest(out: &mut String, left: &Physical, e: &PExpr) -> Result<(), NoMemory>
    ensures { OnOk result (string_bytes out.new ≡ string_bytes out.old ++ rest_text (width_of (physical_tree left.now)) (pterm e.now)) }
{
    if always(e) {
        return Ok(());
    }
    let columns = width(left)?;
    out.push_str(" where ")?;
    push_term(out, Some(columns), e)
}

// A join of all pairs, over its left side.
fn push_nested(out: &mut String, e: &PExpr, left: &Physical) -> Result<(), NoMemory>
    ensures { OnOk result (string_bytes out.new ≡ string_bytes out.old ++ (codes "join all pairs" ++ rest_text (width_of (physical_tree left.now)) (pterm e.now))) }
{
    out.push_str("join all pairs")?;
    push_rest(out, left, e)
}

// A join of rows that are equal in some columns, over its left side.
fn push_hash(
    out: &mut String,
    places: &[(usize, usize)],
    e: &PExpr,
    left: &Physical,
) -> Result<(), NoMemory>
    ensures { OnOk result (string_bytes out.new ≡ string_bytes out.old ++ (codes "join on " ++ listed (map equal_text places.now) ++ rest_text (width_of (physical_tree left.now)) (pterm e.now))) }
{
    out.push_str("join on ")?;
    push_all_equal(out, places)?;
    push_rest(out, left, e)
}

// A join of rows whose ranges overlap, over its left side.
fn push_overlapping(
    out: &mut String,
    at: Bounds,
    e: &PExpr,
    left: &Physical,
) -> Result<(), NoMemory>
    ensures { OnOk result (string_bytes out.new ≡ string_bytes out.old ++ (codes "join on " ++ overlap_text at ++ rest_text (width_of (physical_tree left.now)) (pterm e.now))) }
{
    out.push_str("join on ")?;
    push_overlap(out, at)?;
    push_rest(out, left, e)?;
    Ok(())
}

// Aggregates, each behind a comma.
fn push_other_aggregates(out: &mut String, aggs: &[PAgg]) -> Result<(), NoMemory>
    ensures { OnOk result (string_bytes out.new ≡ string_bytes out.old ++ behind_commas (map aggregate_text aggs.now)) }
{
    for agg in aggs {
        out.push_str(", ")?;
        push_aggregate(out, *agg)?;
    }
    Ok(())
}

// Aggregates behind a colon, where there are some.
fn push_aggregates(out: &mut String, aggs: &[PAgg]) -> Result<(), NoMemory>
    ensures { OnOk result (string_bytes out.new ≡ string_bytes out.old ++ aggregates_text aggs.now) }
{
    match aggs.split_first() {
        Some((first, others)) => {
            out.push_str(": ")?;
            push_aggregate(out, *first)?;
            push_other_aggregates(out, others)
        }
        None => Ok(()),
    }
}

// The keys of a grouping, where there are some.
fn push_keys(out: &mut String, keys: &[usize]) -> Result<(), NoMemory>
    ensures { OnOk result (string_bytes out.new ≡ string_bytes out.old ++ keys_text keys.now) }
{
    match keys.split_first() {
        Some(_) => {
            out.push_str(" by ")?;
            push_columns_at(out, keys)
        }
        None => Ok(()),
    }
}

fn push_scan(out: &mut String, table: usize) -> Result<(), NoMemory>
    ensures { OnOk result (string_bytes out.new ≡ string_bytes out.old ++ (codes "scan t" ++ decimal table)) }
{
    out.push_str("scan t")?;
    push_number(out, table)
}

fn push_rows(out: &mut String, count: usize) -> Result<(), NoMemory>
    ensures { OnOk result (string_bytes out.new ≡ string_bytes out.old ++ (codes "rows: " ++ decimal count)) }
{
    out.push_str("rows: ")?;
    push_number(out, count)
}

// The value of an expression as one more column of a plan's rows.
fn push_extend(out: &mut String, e: &PExpr, of: &Physical) -> Result<(), NoMemory>
    ensures { OnOk result (string_bytes out.new ≡ string_bytes out.old ++ extend_text (width_of (physical_tree of.now)) (pterm e.now)) }
{
    let place = width(of)?;
    out.push_str("extend ")?;
    push_column(out, place)?;
    out.push_str(" = ")?;
    push_term(out, None, e)
}

fn push_keep(out: &mut String, places: &[usize]) -> Result<(), NoMemory>
    ensures { OnOk result (string_bytes out.new ≡ string_bytes out.old ++ (codes "keep " ++ listed (map column_text places.now))) }
{
    out.push_str("keep ")?;
    push_columns_at(out, places)
}

fn push_filter(out: &mut String, e: &PExpr) -> Result<(), NoMemory>
    ensures { OnOk result (string_bytes out.new ≡ string_bytes out.old ++ (codes "filter " ++ term_text None (pterm e.now))) }
{
    out.push_str("filter ")?;
    push_term(out, None, e)
}

fn push_group(out: &mut String, keys: &[usize], aggs: &[PAgg]) -> Result<(), NoMemory>
    ensures { OnOk result (string_bytes out.new ≡ string_bytes out.old ++ (codes "group" ++ keys_text keys.now ++ aggregates_text aggs.now)) }
{
    out.push_str("group")?;
    push_keys(out, keys)?;
    push_aggregates(out, aggs)
}

/// The operator at the top of a plan.
pub fn push_operator(out: &mut String, plan: &Physical) -> Result<(), NoMemory>
    ensures { OnOk result (string_bytes out.new ≡ string_bytes out.old ++ operator_text (physical_tree plan.now)) }
{
    match plan {
        Physical::Scan(table, _) => push_scan(out, *table),
        Physical::Rows(_, rows) => push_rows(out, rows.len()),
        Physical::Extend(e, of) => push_extend(out, e, of),
        Physical::Keep(places, _) => push_keep(out, places),
        Physical::Filter(e, _) => push_filter(out, e),
        Physical::Nested(e, left, _) => push_nested(out, e, left),
        Physical::Hash(places, e, left, _) => push_hash(out, places, e, left),
        Physical::Overlap(at, e, left, _) => push_overlapping(out, *at, e, left),
        Physical::Union(_, _) => {
            out.push_str("union")?;
            Ok(())
        }
        Physical::Group(keys, aggs, _) => push_group(out, keys, aggs),
    }
}
