//! The text of a value that is held as a code, formed in memory that is used again.
ghost use Rattle.std.specs.Prelude.{◌≡◌, ◌++◌, OnOk};
ghost use Rattle.au_value.specs.declared.value.Value.TheVariants as value;
ghost use Rattle.au_value.specs.Order.{kind_of};
ghost use Rattle.au_print.specs.CodedValues.{value_of};
ghost use Rattle.au_print.specs.Texts.{value_text};

use crate::numbers::form_number;
use au_codes::{Codebook, push_text};
use au_value::{Kind, NoMemory};

/// A number, and the kind of the value for which it stands.
#[derive(Clone, Copy)]
pub(crate) struct CodedValue {
    pub(crate) kind: Kind,
    pub(crate) number: i128,
}

/// Makes `room` the text of a value in a column of this kind. What it held before is of no account.
pub(crate) fn form_value(
    room: &mut Vec<u8>,
    book: &Codebook,
    kind: Kind,
    coded: CodedValue,
) -> Result<(), NoMemory>
    ensures { OnOk result (room.new.items ≡ value_text kind (value_of book.now coded)) }
{
    match coded.kind {
        Kind::Int | Kind::Dec(_) => form_number(room, kind, coded.number),
        Kind::Text => {
            room.clear();
            push_text(room, book, coded.number)
        }
        Kind::Flag => {
            room.clear();
            push_flag(room, kind, coded.number != 0)
        }
    }
}

/// Makes `room`, which has the text of a value, that of the next one. Equal numbers have one text.
pub(crate) fn form_next(
    room: &mut Vec<u8>,
    book: &Codebook,
    kind: Kind,
    before: CodedValue,
    next: CodedValue,
) -> Result<(), NoMemory>
    requires formed { room.old.items ≡ value_text kind (value_of book.now before) }
    requires alike { kind_of (value_of book.now before) ≡ kind_of (value_of book.now next) }
    ensures { OnOk result (room.new.items ≡ value_text kind (value_of book.now next)) }
{
    if before.number == next.number {
        return Ok(());
    }
    form_value(room, book, kind, next)
}

// Puts the name of a flag behind a text, whatever the kind of its column.
fn push_flag(text: &mut Vec<u8>, kind: Kind, flag: bool) -> Result<(), NoMemory>
    ensures { OnOk result (text.new.items ≡ text.old.items ++ value_text kind (value.Flag flag)) }
{
    match flag {
        true => text.extend_from_slice(b"true")?,
        false => text.extend_from_slice(b"false")?,
    }
    Ok(())
}
