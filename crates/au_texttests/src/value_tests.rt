//! Numerals, sums, and values in order.
use crate::cases::{Call, judge, push_value, value};
use au_value::{Adder, Value, compare, copies, kind, read_decimal, read_numeral};
use std::alloc::{AllocError, Global};
use std::test::Fail;

struct Numeral;

impl Call for Numeral {
    fn outcome(alloc: Global, given: &str) -> Result<String, Fail> {
        let number = read_numeral(given.as_bytes());
        Ok(format!(in alloc; "{number:?}")?)
    }
}

// A number read at each scale: `SCALE TEXT`.
struct Decimal;

impl Call for Decimal {
    fn outcome(alloc: Global, given: &str) -> Result<String, Fail> {
        let (digit, text) = given.split_once(' ').ok_or("a scale and a text")?;
        let number = match digit {
            "1" => read_decimal(text.as_bytes(), 1),
            "2" => read_decimal(text.as_bytes(), 2),
            _ => read_decimal(text.as_bytes(), 9),
        };
        Ok(format!(in alloc; "{number:?}")?)
    }
}

// The total after each term, behind a `!` where the term was refused.
struct Totals;

impl Call for Totals {
    fn outcome(alloc: Global, given: &str) -> Result<String, Fail> {
        let mut adder = Adder::new();
        let mut text = String::new(alloc);
        for word in given.split(' ') {
            let term = read_numeral(word.as_bytes()).ok_or("a number")?;
            let mark = if adder.add(term).is_ok() { "" } else { "!" };
            let total = adder.total();
            text.push_str(format!(in alloc; "{mark}{total} ")?.as_str())?;
        }
        Ok(text)
    }
}

/// The values of a text, which stand apart by ` | `.
pub(crate) fn values(alloc: Global, text: &str) -> Result<Vec<Value>, AllocError> {
    let mut values = Vec::new(alloc);
    for word in text.split(" | ") {
        values.push(value(alloc, word)?)?;
    }
    Ok(values)
}

// How each value stands to the first.
fn orders_text(alloc: Global, values: &[Value]) -> Result<String, Fail> {
    let first = values.first().ok_or("a value")?;
    let mut text = String::new(alloc);
    for value in values {
        let order = compare(first, value);
        let kind = kind(value);
        text.push_str(format!(in alloc; "{kind:?} {order:?};")?.as_str())?;
    }
    Ok(text)
}

struct Orders;

impl Call for Orders {
    fn outcome(alloc: Global, given: &str) -> Result<String, Fail> {
        let values = values(alloc, given)?;
        orders_text(alloc, values.as_slice())
    }
}

struct Copies;

impl Call for Copies {
    fn outcome(alloc: Global, given: &str) -> Result<String, Fail> {
        let values = values(alloc, given)?;
        let copied = copies(alloc, values.as_slice())?;
        let mut text = String::new(alloc);
        for value in &copied {
            push_value(alloc, &mut text, value)?;
            text.push_str(";")?;
        }
        Ok(text)
    }
}

const NUMERALS: &str = "0 -> Some(0)
-0 -> Some(0)
007 -> Some(7)
170141183460469231731687303715884105727 -> Some(170141183460469231731687303715884105727)
170141183460469231731687303715884105728 -> None
-170141183460469231731687303715884105728 -> Some(-170141183460469231731687303715884105728)
0000000000000000000000000000000000000001 -> None
 -> None
- -> None
+5 -> None
 5 -> None
1e3 -> None";

const DECIMALS: &str = "2 2.50 -> Some(250)
2 2.5 -> Some(250)
2 2 -> Some(200)
2 -0.05 -> Some(-5)
2 -.05 -> None
2 2. -> None
2 2.505 -> None
2 2.500 -> None
2 +1 -> None
2 1,5 -> None
2  -> None
2 - -> None
2 007.10 -> Some(710)
1 -0 -> Some(0)
9 0.000000001 -> Some(1)
9 0.0000000001 -> None
9 170141183460469231731687303715.884105727 -> Some(170141183460469231731687303715884105727)
9 170141183460469231731687303715.884105728 -> None
9 -170141183460469231731687303715.884105728 -> Some(-170141183460469231731687303715884105728)
9 170141183460469231731687303716 -> None
1 17014118346046923173168730371588410572.7 -> Some(170141183460469231731687303715884105727)
1 000000000000000000000000000000000000001.5 -> Some(15)
1 0000000000000000000000000000000000000001.5 -> None";

// A term past the greatest sum of magnitudes, the greatest, and a small total of great magnitudes.
const TOTALS: &str =
    "5 170141183460469231731687303715884105723 -170141183460469231731687303715884105722 1 0 -> 5 !5 -170141183460469231731687303715884105717 !-170141183460469231731687303715884105717 -170141183460469231731687303715884105717 
-170141183460469231731687303715884105728 -> !0 ";

// Texts by their bytes, and numbers before texts before flags.
const ORDERS: &str =
    "Bergen | Oslo | Bergen | Berge -> Text Equal;Text Less;Text Equal;Text Greater;
b | B | c -> Text Equal;Text Greater;Text Less;
a | \u{e5} -> Text Equal;Text Less;
7 | 9 | -9 | 7 | Oslo | false -> Int Equal;Int Less;Int Greater;Int Equal;Text Less;Flag Less;
Oslo | 9 | false -> Text Equal;Int Greater;Flag Less;
false | true | 9 | z -> Flag Equal;Flag Less;Int Greater;Text Greater;";

const COPIES: &str = "9 | Oslo | true | false -> 9;Oslo;true;false;";

#[test]
fn numerals_of_128_bits(rt: HostRuntime) -> Result<(), Fail> {
    judge::<Numeral>(&rt, rt.alloc(), NUMERALS)
}

#[test]
fn decimals_at_their_scale(rt: HostRuntime) -> Result<(), Fail> {
    judge::<Decimal>(&rt, rt.alloc(), DECIMALS)
}

#[test]
fn totals_of_terms(rt: HostRuntime) -> Result<(), Fail> {
    judge::<Totals>(&rt, rt.alloc(), TOTALS)
}

#[test]
fn values_in_order(rt: HostRuntime) -> Result<(), Fail> {
    judge::<Orders>(&rt, rt.alloc(), ORDERS)
}

#[test]
fn copies_of_values(rt: HostRuntime) -> Result<(), Fail> {
    judge::<Copies>(&rt, rt.alloc(), COPIES)
}
