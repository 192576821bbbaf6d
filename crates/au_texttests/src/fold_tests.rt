//! Groups of rows that come in batches.
ghost use Rattle.std.specs.Prelude.{◌≡◌, ◌∷◌, [], IfOk};
ghost use Rattle.au_plain.specs.declared.plan.PAgg.TheVariants as agg;
ghost use Rattle.au_folds.specs.Tables.{empty_table, grown};

use crate::cases::{Call, judge};
use crate::column_tests::pairs;
use au_columns::Batch;
use au_expr::EvalFault;
use au_folds::{Groups, grouped, tables_stay_alike};
use au_plain::PAgg;
use std::alloc::Global;
use std::test::Fail;

// By the first numbers, of the second ones the sum, the least and the greatest.
fn grown_by(alloc: Global, rows: &Batch) -> Result<Groups, EvalFault>
    ensures { IfOk result (λ g. g ≡ grown (empty_table (0 ∷ []) (agg.Sum 1 ∷ agg.Min 1 ∷ agg.Max 1 ∷ [])) rows.now) }
{
    let groups = Groups::new(alloc, &[0], &[PAgg::Sum(1), PAgg::Min(1), PAgg::Max(1)])?;
    let more = groups.add(alloc, rows)?;
    Ok(more)
}

// The groups of two batches, the second one added behind the first.
fn added(alloc: Global, first: &Batch, second: &Batch) -> Result<Batch, EvalFault> {
    let groups = grown_by(alloc, first)?;
    let groups = groups.add(alloc, second)?;
    Ok(groups.finish(alloc)?)
}

// The same, with groups of their own for each.
fn merged(alloc: Global, first: &Batch, second: &Batch) -> Result<Batch, EvalFault> {
    tables_stay_alike();
    let front = grown_by(alloc, first)?;
    let back = grown_by(alloc, second)?;
    let all = front.merge(alloc, back)?;
    Ok(all.finish(alloc)?)
}

// By some columns the sum of the first numbers.
fn summed_by(alloc: Global, keys: &[usize], rows: &Batch) -> Result<Groups, EvalFault>
    ensures { IfOk result (λ g. g ≡ grown (empty_table keys.now (agg.Sum 0 ∷ [])) rows.now) }
{
    let groups = Groups::new(alloc, keys, &[PAgg::Sum(0)])?;
    let more = groups.add(alloc, rows)?;
    Ok(more)
}

// The sums over two batches, the second one added behind the first.
fn sums_added(
    alloc: Global,
    keys: &[usize],
    first: &Batch,
    second: &Batch,
) -> Result<Batch, EvalFault> {
    let groups = summed_by(alloc, keys, first)?;
    let groups = groups.add(alloc, second)?;
    Ok(groups.finish(alloc)?)
}

// The same, with groups of their own for each.
fn sums_merged(
    alloc: Global,
    keys: &[usize],
    first: &Batch,
    second: &Batch,
) -> Result<Batch, EvalFault> {
    tables_stay_alike();
    let front = summed_by(alloc, keys, first)?;
    let back = summed_by(alloc, keys, second)?;
    let all = front.merge(alloc, back)?;
    Ok(all.finish(alloc)?)
}

// The rows of groups, of so many numbers each, or a `!`.
fn groups_text(
    alloc: Global,
    groups: Result<Batch, EvalFault>,
    width: usize,
) -> Result<String, Fail> {
    let Ok(rows) = groups else {
        return Ok(format!(in alloc; "!")?);
    };
    let mut text = String::new(alloc);
    for row in 0..rows.len() {
        for place in 0..width {
            let number = rows.cell(row, place);
            text.push_str(format!(in alloc; "{number},")?.as_str())?;
        }
        text.push_str(";")?;
    }
    Ok(text)
}

// The groups of two batches, by adding and by merging.
struct Both;

impl Call for Both {
    fn outcome(alloc: Global, given: &str) -> Result<String, Fail> {
        let (first, second) = given.split_once(" / ").ok_or("two batches")?;
        let first = pairs(alloc, first)?;
        let second = pairs(alloc, second)?;
        let mut text = groups_text(alloc, added(alloc, &first, &second), 4)?;
        text.push_str(" ")?;
        text.push_str(groups_text(alloc, merged(alloc, &first, &second), 4)?.as_str())?;
        Ok(text)
    }
}

// The groups of two batches by both numbers, and by three columns, by adding and by merging.
struct Edges;

impl Call for Edges {
    fn outcome(alloc: Global, given: &str) -> Result<String, Fail> {
        let (first, second) = given.split_once(" / ").ok_or("two batches")?;
        let first = pairs(alloc, first)?;
        let second = pairs(alloc, second)?;
        let mut text = groups_text(alloc, sums_added(alloc, &[0, 1], &first, &second), 3)?;
        text.push_str(" ")?;
        let merged = sums_merged(alloc, &[0, 1], &first, &second);
        text.push_str(groups_text(alloc, merged, 3)?.as_str())?;
        text.push_str(" ")?;
        let added = sums_added(alloc, &[0, 0, 1], &first, &second);
        text.push_str(groups_text(alloc, added, 4)?.as_str())?;
        text.push_str(" ")?;
        let merged = sums_merged(alloc, &[0, 0, 1], &first, &second);
        text.push_str(groups_text(alloc, merged, 4)?.as_str())?;
        Ok(text)
    }
}

// Of a batch the groups by both numbers, with their sum, and those by none.
struct Whole;

impl Call for Whole {
    fn outcome(alloc: Global, given: &str) -> Result<String, Fail> {
        let rows = pairs(alloc, given)?;
        let by_both = grouped(alloc, &[1, 0], &[PAgg::Sum(1)], &rows);
        let mut text = groups_text(alloc, by_both, 3)?;
        text.push_str(" ")?;
        let by_none = grouped(alloc, &[], &[PAgg::Sum(0), PAgg::Max(1)], &rows);
        text.push_str(groups_text(alloc, by_none, 2)?.as_str())?;
        Ok(text)
    }
}

// Keys that come back, sums at the edges of 64 and of 128 bits, and magnitudes that leave these. The numbers were made by
// another program.
const BOTH: &str =
    "1 | 10 | 2 | 20 / 1 | 5 | 3 | -7 | 1 | 2 -> 1,17,2,10,;2,20,20,20,;3,-7,-7,-7,; 1,17,2,10,;2,20,20,20,;3,-7,-7,-7,;
5 | 9223372036854775807 | 5 | 1 / 5 | 1 | -9223372036854775809 | 0 -> 5,9223372036854775809,1,9223372036854775807,;-9223372036854775809,0,0,0,; 5,9223372036854775809,1,9223372036854775807,;-9223372036854775809,0,0,0,;
0 | 170141183460469231731687303715884105727 / 0 | 0 | 1 | 170141183460469231731687303715884105727 -> 0,170141183460469231731687303715884105727,0,170141183460469231731687303715884105727,;1,170141183460469231731687303715884105727,170141183460469231731687303715884105727,170141183460469231731687303715884105727,; 0,170141183460469231731687303715884105727,0,170141183460469231731687303715884105727,;1,170141183460469231731687303715884105727,170141183460469231731687303715884105727,170141183460469231731687303715884105727,;
0 | 170141183460469231731687303715884105727 / 0 | 1 -> ! !
0 | 170141183460469231731687303715884105727 / 0 | -1 -> ! !
7 | -170141183460469231731687303715884105727 / 8 | -170141183460469231731687303715884105727 -> 7,-170141183460469231731687303715884105727,-170141183460469231731687303715884105727,-170141183460469231731687303715884105727,;8,-170141183460469231731687303715884105727,-170141183460469231731687303715884105727,-170141183460469231731687303715884105727,; 7,-170141183460469231731687303715884105727,-170141183460469231731687303715884105727,-170141183460469231731687303715884105727,;8,-170141183460469231731687303715884105727,-170141183460469231731687303715884105727,-170141183460469231731687303715884105727,;";

const WHOLE: &str = "1 | 2 | 2 | 1 | 1 | 2 | 1 | 3 -> 2,1,4,;1,2,1,;3,1,3,; 5,3,;
18446744073709551616 | 18446744073709551616 | 18446744073709551616 | -1 | 18446744073709551616 | 18446744073709551616 -> 18446744073709551616,18446744073709551616,36893488147419103232,;-1,18446744073709551616,-1,; 55340232221128654848,18446744073709551616,;
170141183460469231731687303715884105727 | 1 | 1 | 170141183460469231731687303715884105727 -> 1,170141183460469231731687303715884105727,1,;170141183460469231731687303715884105727,1,170141183460469231731687303715884105727,; !
170141183460469231731687303715884105727 | 170141183460469231731687303715884105727 | 170141183460469231731687303715884105727 | 170141183460469231731687303715884105727 -> ! !";

// Keys that are packed into one number, and those that just aren't: of two columns the first has 63 bits and the last 64, of
// three the first two have 42 and the last 43. Some are below zero, and some batches have the first key that isn't packed
// behind others. The numbers were made by another program.
const EDGES: &str =
    "1 | 2 | 3 | 4 | 1 | 2 / 5 | 6 | 3 | 4 | 2 | 1 -> 1,2,2,;3,4,6,;5,6,5,;2,1,2,; 1,2,2,;3,4,6,;5,6,5,;2,1,2,; 1,1,2,2,;3,3,4,6,;5,5,6,5,;2,2,1,2,; 1,1,2,2,;3,3,4,6,;5,5,6,5,;2,2,1,2,;
0 | 0 | 9223372036854775807 | 18446744073709551615 | 9223372036854775807 | 0 / 9223372036854775807 | 18446744073709551615 | 0 | 9223372036854775807 | 0 | 0 -> 0,0,0,;9223372036854775807,18446744073709551615,18446744073709551614,;9223372036854775807,0,9223372036854775807,;0,9223372036854775807,0,; 0,0,0,;9223372036854775807,18446744073709551615,18446744073709551614,;9223372036854775807,0,9223372036854775807,;0,9223372036854775807,0,; 0,0,0,0,;9223372036854775807,9223372036854775807,18446744073709551615,18446744073709551614,;9223372036854775807,9223372036854775807,0,9223372036854775807,;0,0,9223372036854775807,0,; 0,0,0,0,;9223372036854775807,9223372036854775807,18446744073709551615,18446744073709551614,;9223372036854775807,9223372036854775807,0,9223372036854775807,;0,0,9223372036854775807,0,;
9223372036854775807 | 1 | 1 | 0 / 9223372036854775808 | 1 | 9223372036854775807 | 1 | 9223372036854775808 | 1 -> 9223372036854775807,1,18446744073709551614,;1,0,1,;9223372036854775808,1,18446744073709551616,; 9223372036854775807,1,18446744073709551614,;1,0,1,;9223372036854775808,1,18446744073709551616,; 9223372036854775807,9223372036854775807,1,18446744073709551614,;1,1,0,1,;9223372036854775808,9223372036854775808,1,18446744073709551616,; 9223372036854775807,9223372036854775807,1,18446744073709551614,;1,1,0,1,;9223372036854775808,9223372036854775808,1,18446744073709551616,;
1 | 18446744073709551616 | 1 | 0 | 1 | 18446744073709551616 / 1 | 0 | 2 | 18446744073709551616 -> 1,18446744073709551616,2,;1,0,2,;2,18446744073709551616,2,; 1,18446744073709551616,2,;1,0,2,;2,18446744073709551616,2,; 1,1,18446744073709551616,2,;1,1,0,2,;2,2,18446744073709551616,2,; 1,1,18446744073709551616,2,;1,1,0,2,;2,2,18446744073709551616,2,;
4398046511103 | 4398046511103 | 0 | 4398046511103 / 4398046511104 | 0 | 4398046511103 | 4398046511103 | 0 | 4398046511104 -> 4398046511103,4398046511103,8796093022206,;0,4398046511103,0,;4398046511104,0,4398046511104,;0,4398046511104,0,; 4398046511103,4398046511103,8796093022206,;0,4398046511103,0,;4398046511104,0,4398046511104,;0,4398046511104,0,; 4398046511103,4398046511103,4398046511103,8796093022206,;0,0,4398046511103,0,;4398046511104,4398046511104,0,4398046511104,;0,0,4398046511104,0,; 4398046511103,4398046511103,4398046511103,8796093022206,;0,0,4398046511103,0,;4398046511104,4398046511104,0,4398046511104,;0,0,4398046511104,0,;
0 | 8796093022207 | 1 | 8796093022208 / 1 | 8796093022207 | 0 | 8796093022207 -> 0,8796093022207,0,;1,8796093022208,1,;1,8796093022207,1,; 0,8796093022207,0,;1,8796093022208,1,;1,8796093022207,1,; 0,0,8796093022207,0,;1,1,8796093022208,1,;1,1,8796093022207,1,; 0,0,8796093022207,0,;1,1,8796093022208,1,;1,1,8796093022207,1,;
5 | 5 | -1 | 0 | 5 | 5 / -1 | 0 | 0 | -1 | -1 | 1 | 5 | 5 -> 5,5,15,;-1,0,-2,;0,-1,0,;-1,1,-1,; 5,5,15,;-1,0,-2,;0,-1,0,;-1,1,-1,; 5,5,5,15,;-1,-1,0,-2,;0,0,-1,0,;-1,-1,1,-1,; 5,5,5,15,;-1,-1,0,-2,;0,0,-1,0,;-1,-1,1,-1,;
7 | 1 | 8 | 1 / 8 | 1 | 9 | 1 | -9223372036854775808 | 9223372036854775808 | 7 | 1 | 9 | 1 | -9223372036854775808 | 9223372036854775808 -> 7,1,14,;8,1,16,;9,1,18,;-9223372036854775808,9223372036854775808,-18446744073709551616,; 7,1,14,;8,1,16,;9,1,18,;-9223372036854775808,9223372036854775808,-18446744073709551616,; 7,7,1,14,;8,8,1,16,;9,9,1,18,;-9223372036854775808,-9223372036854775808,9223372036854775808,-18446744073709551616,; 7,7,1,14,;8,8,1,16,;9,9,1,18,;-9223372036854775808,-9223372036854775808,9223372036854775808,-18446744073709551616,;
-7 | 1 | 8 | 1 / 8 | 1 | 9 | 1 -> -7,1,-7,;8,1,16,;9,1,9,; -7,1,-7,;8,1,16,;9,1,9,; -7,-7,1,-7,;8,8,1,16,;9,9,1,9,; -7,-7,1,-7,;8,8,1,16,;9,9,1,9,;";

#[test]
fn groups_of_two_batches(rt: HostRuntime) -> Result<(), Fail> {
    judge::<Both>(&rt, rt.alloc(), BOTH)
}

#[test]
fn groups_of_a_batch(rt: HostRuntime) -> Result<(), Fail> {
    judge::<Whole>(&rt, rt.alloc(), WHOLE)
}

#[test]
fn groups_by_packed_keys(rt: HostRuntime) -> Result<(), Fail> {
    judge::<Edges>(&rt, rt.alloc(), EDGES)
}
