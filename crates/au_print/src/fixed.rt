//! The texts of fixed-point numbers.
ghost use Rattle.std.specs.Prelude.{◌≡◌, ◌++◌, ◌≤◌, ◌^◌, OnOk};
ghost use Rattle.au_print.specs.Texts.{fixed_text, units_text};

use crate::repeated::push_repeated;
use au_value::NoMemory;
use itoa::Buffer;

/// Puts a number of units of 10^-scale behind a text: its whole part, a point, and as many digits as the scale says,
/// behind `-` where it is negative.
pub fn push_fixed(text: &mut Vec<u8>, n: i128, scale: u32) -> Result<(), NoMemory>
    ensures { OnOk result (text.new.items ≡ text.old.items ++ fixed_text scale n) }
{
    if n < 0 {
        text.push(b'-')?;
    }
    push_units(text, n.unsigned_abs(), scale)
}

// The same of a number that is not negative. The digits are formed once and cut.
fn push_units(text: &mut Vec<u8>, n: u128, scale: u32) -> Result<(), NoMemory>
    requires { n ≤ 2 ^ 127 }
    ensures { OnOk result (text.new.items ≡ text.old.items ++ units_text scale n) }
{
    let mut buffer = Buffer::new();
    let digits = buffer.format(n).as_bytes();
    let places = scale as usize;
    if places < digits.len() {
        let (whole, rest) = digits.split_at(digits.len() - places);
        text.extend_from_slice(whole)?;
        text.push(b'.')?;
        text.extend_from_slice(rest)?;
    } else {
        text.extend_from_slice(b"0.")?;
        push_repeated(text, b'0', places - digits.len())?;
        text.extend_from_slice(digits)?;
    }
    Ok(())
}
