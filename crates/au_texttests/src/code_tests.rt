//! The numbers that stand for values, and the values of numbers.
use crate::cases::{Call, judge};
use crate::value_tests::values;
use au_codes::{Codebook, LongTexts, code, decode};
use au_value::{Value, kind};
use std::alloc::Global;
use std::test::Fail;

// The number of each value under the book of the long texts among them, behind a `!` where another value is read back.
struct Codes;

impl Call for Codes {
    fn outcome(alloc: Global, given: &str) -> Result<String, Fail> {
        let values = values(alloc, given)?;
        let mut texts = LongTexts::new(alloc);
        texts.add_row(values.as_slice())?;
        let book = texts.book()?;
        codes_text(alloc, &book, values.as_slice())
    }
}

fn codes_text(alloc: Global, book: &Codebook, values: &[Value]) -> Result<String, Fail> {
    let mut text = String::new(alloc);
    for value in values {
        let number = code(book, value);
        let back = decode(alloc, book, kind(value), number)?;
        let mark = if back == *value { "" } else { "!" };
        text.push_str(format!(in alloc; "{mark}{number};")?.as_str())?;
    }
    Ok(text)
}

// Texts with a NUL, beyond ASCII, of 12 and of 13 bytes, and long ones; numbers and flags. The numbers were made by another
// program.
const CODES: &str = " | a -> 0;64467557795568419835834642423596711937;
a\0 | a\0b -> 64467557795568419835834642423596711938;64468551633638998767685415838909726723;
ab | b -> 64721980341636626389632636743728496642;65132171793460877772286545953736884225;
å | zz -> 130028094079858420887474954324494254082;81399637851250492732472590953183444994;
abcdefghijkl | abcdefghijklm -> 64722988298011025238216334404558520332;64722988298011025238216334404558520333;
abcdefghijkln | abcdefghijklm -> 64722988298011025238216334404558520334;64722988298011025238216334404558520333;
Karl Johans gate 1 | Karl Johans gate -> 50099036620238221755912980079640051726;50099036620238221755912980079640051725;
Karl Johans gate | Karl Johans  -> 50099036620238221755912980079640051725;50099036620238221755912980079640051724;
-5 | true -> -5;1;
170141183460469231731687303715884105727 | false -> 170141183460469231731687303715884105727;0;";

#[test]
fn codes_of_values(rt: HostRuntime) -> Result<(), Fail> {
    judge::<Codes>(&rt, rt.alloc(), CODES)
}
