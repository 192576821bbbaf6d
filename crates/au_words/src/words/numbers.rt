//! Numbers among the words.
ghost use Rattle.std.specs.Prelude.{◌≡◌, true, nat_lt, if◌then◌else◌, Some, None};
ghost use Rattle.std.specs.Str.Parse.{digits_value};
ghost use Rattle.au_words.specs.Words.{is_number, is_plain};

use au_value::all_digits;

// Whether a text is digits without a leading zero.
fn is_plain(text: &[u8]) -> bool
    ensures { result ≡ is_plain text.now }
{
    !text.is_empty() && all_digits(text) && (text.len() == 1 || text[0] != b'0')
}

// The number of such a text, if it fits.
fn value_of(word: &str) -> Option<u32>
    requires { is_plain word.now ≡ true }
    ensures { result ≡ (if nat_lt (digits_value 10 word.now) 4294967296 then Some (digits_value 10 word.now) else None) }
{
    word.parse().ok()
}

/// The number that a word writes in digits without a leading zero, if it lies between these two.
pub fn read_number(word: &str, least: u32, most: u32) -> Option<u32>
    ensures { result ≡ (if is_number least most word.now then Some (digits_value 10 word.now) else None) }
{
    if !is_plain(word.as_bytes()) {
        return None;
    }
    match value_of(word) {
        Some(number) if least <= number && number <= most => Some(number),
        _ => None,
    }
}
