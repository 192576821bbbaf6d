//! The first 12 bytes of a text as a number, and the bytes of such a number.
ghost use Rattle.std.specs.Prelude.{◌≡◌, ◌<◌, ◌^◌, [], get_or};
ghost use Rattle.std.specs.Str.{IsUtf8};
ghost use Rattle.au_codes.specs.Decoding.{unpacked};
ghost use Rattle.au_codes.specs.TextCodes.{is_short as is_short_text, packed};

use au_value::Word;

/// Whether a text has at most 12 bytes.
pub(crate) fn is_short(word: &Word) -> bool
    ensures utf8 { IsUtf8 word.now }
    ensures short { result ≡ is_short_text word.now }
{
    word.as_str().as_bytes().len() <= 12
}

/// The first 12 bytes, and zeros past the last, as digits in base 256.
pub(crate) fn pack(text: &[u8]) -> u128
    ensures is { result ≡ packed 12 0 text.now }
    ensures small { result < 2 ^ 96 }
{
    let mut number: u128 = 0;
    for place in 0..12 {
        number = number * 256 + byte_at(text, place) as u128;
    }
    number
}

// The byte at a place, and 0 past the last.
fn byte_at(text: &[u8], place: usize) -> u8
    ensures { result ≡ get_or text.now place 0 }
{
    if place < text.len() { text[place] } else { 0 }
}

/// The last 12 digits in base 256.
pub(crate) fn unpack(number: u128) -> [u8; 12]
    ensures { result ≡ unpacked 12 number [] }
{
    let mut bytes = [0u8; 12];
    let mut rest = number;
    for place in 0..12 {
        bytes[11 - place] = (rest % 256) as u8;
        rest = rest / 256;
    }
    bytes
}
