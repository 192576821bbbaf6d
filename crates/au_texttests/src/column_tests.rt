//! Expressions and chains over batches of columns.
use crate::cases::{Call, judge};
use crate::value_tests::values;
use au_codes::{Codebook, LongTexts, code};
use au_columns::{Batch, Column, evaluate, run_chain};
use au_physical::{Physical, is_chain};
use au_plain::{Comparison2, PExpr};
use au_value::{NoMemory, Value};
use std::alloc::Global;
use std::test::Fail;

/// The column of a place.
pub(crate) fn column(alloc: Global, place: usize) -> Result<Box<PExpr>, NoMemory> {
    Ok(Box::new(alloc, PExpr::Column(place))?)
}

fn less(alloc: Global) -> Result<PExpr, NoMemory> {
    Ok(PExpr::Compare(Comparison2::Less, column(alloc, 0)?, column(alloc, 1)?))
}

fn sum(alloc: Global) -> Result<PExpr, NoMemory> {
    Ok(PExpr::Add(column(alloc, 0)?, column(alloc, 1)?))
}

fn product(alloc: Global) -> Result<PExpr, NoMemory> {
    Ok(PExpr::Multiply(column(alloc, 0)?, column(alloc, 1)?))
}

// The lesser of a and b.
fn lesser(alloc: Global) -> Result<PExpr, NoMemory> {
    let mut both = Vec::new(alloc);
    both.push(PExpr::Column(0))?;
    both.push(PExpr::Column(1))?;
    Ok(PExpr::Least(both))
}

// CASE WHEN a < b THEN a ELSE a * b END
fn case(alloc: Global) -> Result<PExpr, NoMemory> {
    let condition = Box::new(alloc, less(alloc)?)?;
    let first = column(alloc, 0)?;
    Ok(PExpr::Case(condition, first, Box::new(alloc, product(alloc)?)?))
}

fn tree(alloc: Global, which: usize) -> Result<PExpr, NoMemory> {
    match which {
        0 => sum(alloc),
        1 => Ok(PExpr::Subtract(column(alloc, 0)?, column(alloc, 1)?)),
        2 => product(alloc),
        3 => Ok(PExpr::Negate(column(alloc, 0)?)),
        4 => lesser(alloc),
        5 => less(alloc),
        _ => case(alloc),
    }
}

// The numbers of every second value, from one on.
fn numbers(alloc: Global, book: &Codebook, values: &[Value], first: usize) -> Result<Column, Fail> {
    let mut column = Column::new(alloc);
    for place in 0..values.len() {
        if place % 2 == first {
            column.push(alloc, code(book, &values[place]))?;
        }
    }
    Ok(column)
}

/// Rows of two values each.
pub(crate) fn pairs(alloc: Global, given: &str) -> Result<Batch, Fail> {
    let values = values(alloc, given)?;
    let book = LongTexts::new(alloc).book()?;
    let left = numbers(alloc, &book, values.as_slice(), 0)?;
    let right = numbers(alloc, &book, values.as_slice(), 1)?;
    let batch = Batch::new(alloc, left.len());
    let batch = batch.with_column(alloc, left)?;
    if right.len() != batch.len() {
        return Err(Fail::from("a value has no other"));
    }
    Ok(batch.with_column(alloc, right)?)
}

// Of each expression the values on all rows, or a `!`.
struct Results;

impl Call for Results {
    fn outcome(alloc: Global, given: &str) -> Result<String, Fail> {
        let batch = pairs(alloc, given)?;
        let mut text = String::new(alloc);
        for which in 0..7 {
            let tree = tree(alloc, which)?;
            text.push_str(values_text(alloc, &batch, &tree)?.as_str())?;
        }
        Ok(text)
    }
}

fn values_text(alloc: Global, batch: &Batch, tree: &PExpr) -> Result<String, Fail> {
    let Ok(column) = evaluate(alloc, batch, tree) else {
        return Ok(format!(in alloc; "!;")?);
    };
    let mut text = String::new(alloc);
    for row in 0..column.len() {
        let number = column.get(row);
        text.push_str(format!(in alloc; "{number};")?.as_str())?;
    }
    Ok(text)
}

// The rows of a chain: the sum and the second number, where the sum is below the second number.
struct Chain;

impl Call for Chain {
    fn outcome(alloc: Global, given: &str) -> Result<String, Fail> {
        let batch = pairs(alloc, given)?;
        let plan = made_chain(alloc)?;
        if !is_chain(&plan) {
            return Err(Fail::from("no chain"));
        }
        let Ok(rows) = run_chain(alloc, &plan, batch) else {
            return Ok(format!(in alloc; "!")?);
        };
        rows_text(alloc, &rows)
    }
}

fn made_chain(alloc: Global) -> Result<Physical, NoMemory> {
    let scan = Box::new(alloc, Physical::Scan(0, 2))?;
    let extended = Box::new(alloc, Physical::Extend(sum(alloc)?, scan))?;
    let below = PExpr::Compare(Comparison2::Less, column(alloc, 2)?, column(alloc, 1)?);
    let filtered = Box::new(alloc, Physical::Filter(below, extended))?;
    Ok(Physical::Keep(vec![in alloc; 2, 1]?, filtered))
}

/// The two numbers of each row.
pub(crate) fn rows_text(alloc: Global, rows: &Batch) -> Result<String, Fail> {
    let mut text = String::new(alloc);
    for row in 0..rows.len() {
        let sum = rows.cell(row, 0);
        let second = rows.cell(row, 1);
        text.push_str(format!(in alloc; "{sum} {second};")?.as_str())?;
    }
    Ok(text)
}

// Sum, difference, product, opposite, lesser, test and CASE at the edges of 64 and of 128 bits. The numbers were made by
// another program.
const VALUES: &str = "1 | 2 -> 3;-1;2;-1;1;1;1;
9223372036854775807 | 1 -> 9223372036854775808;9223372036854775806;9223372036854775807;-9223372036854775807;1;0;9223372036854775807;
-9223372036854775808 | -1 -> -9223372036854775809;-9223372036854775807;9223372036854775808;9223372036854775808;-9223372036854775808;1;-9223372036854775808;
18446744073709551616 | 9223372036854775807 -> 27670116110564327423;9223372036854775809;170141183460469231713240559642174554112;-18446744073709551616;9223372036854775807;0;170141183460469231713240559642174554112;
170141183460469231731687303715884105727 | 1 -> !;170141183460469231731687303715884105726;170141183460469231731687303715884105727;-170141183460469231731687303715884105727;1;0;170141183460469231731687303715884105727;
-170141183460469231731687303715884105728 | -1 -> !;-170141183460469231731687303715884105727;!;!;-170141183460469231731687303715884105728;1;-170141183460469231731687303715884105728;
170141183460469231731687303715884105727 | 170141183460469231731687303715884105727 -> !;0;!;-170141183460469231731687303715884105727;170141183460469231731687303715884105727;0;!;
0 | -170141183460469231731687303715884105728 -> -170141183460469231731687303715884105728;!;0;0;-170141183460469231731687303715884105728;0;0;";

const CHAINS: &str = "-1 | 2 | 3 | 4 | -5 | -6 -> 1 2;-11 -6;
-9223372036854775808 | -1 | 0 | 0 -> -9223372036854775809 -1;
170141183460469231731687303715884105727 | 1 -> !";

#[test]
fn values_of_expressions(rt: HostRuntime) -> Result<(), Fail> {
    judge::<Results>(&rt, rt.alloc(), VALUES)
}

#[test]
fn rows_of_chains(rt: HostRuntime) -> Result<(), Fail> {
    judge::<Chain>(&rt, rt.alloc(), CHAINS)
}
