//! The texts of numbers, each formed in memory that is used again.
ghost use Rattle.std.specs.Prelude.{◌≡◌, ◌++◌, OnOk};
ghost use Rattle.std.specs.Fmt.{signed_decimal};
ghost use Rattle.au_print.specs.Texts.{number_text};

use crate::fixed::push_fixed;
use au_value::{Kind, NoMemory};
use itoa::Buffer;

/// Makes `room` the text of a number of a column of this kind. What it held before is of no account.
pub fn form_number(room: &mut Vec<u8>, kind: Kind, n: i128) -> Result<(), NoMemory>
    ensures { OnOk result (room.new.items ≡ number_text kind n) }
{
    room.clear();
    match kind {
        Kind::Dec(scale) => push_fixed(room, n, scale),
        Kind::Int | Kind::Text | Kind::Flag => push_digits(room, n),
    }
}

// Puts a number's decimal digits behind a text.
fn push_digits(text: &mut Vec<u8>, n: i128) -> Result<(), NoMemory>
    ensures { OnOk result (text.new.items ≡ text.old.items ++ signed_decimal n) }
{
    let mut buffer = Buffer::new();
    text.extend_from_slice(buffer.format(n).as_bytes())?;
    Ok(())
}
