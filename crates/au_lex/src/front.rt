//! The lexeme that begins a text.
ghost use Rattle.std.specs.Prelude.{◌≡◌, ◌+◌, ◌<◌, ◌≤◌, ◌==◌, ◌^◌, ◌⊎◌, ◌∷◌, ◌++◌, ◌-◌, ◌||◌, nat_lt, [], true, false, length, Some, None, take, Ok, Err, IfOk, IfErr, IfSome, drop, slice_index, option_map};
ghost use Rattle.std.specs.List.{list_all};
ghost use Rattle.std.specs.Char.{is_ascii_digit};
ghost use Rattle.std.specs.Option.{option_or};
ghost use Rattle.std.specs.Str.{IsUtf8, str_eq_ignore_ascii_case};
ghost use Rattle.au_lex.specs.Fronts.{quoted_front, behind_unit, most, number_after, number_within, scaled, symbol_front};
ghost use Rattle.au_lex.specs.Lexemes.{begins_name, begins_run, entry_of, fraction, fraction_length, keywords, symbol_named};
ghost use Rattle.au_lex.specs.Tokens.{one_too_many, token_at, Finds, IsQuote, IsOther};

use crate::scan::{begins_name, behind, digits_length, word_length};
use crate::{Keyword, LexFault, Lexeme, Symbol};
use au_value::Word;
use std::alloc::{AllocError, Global};

// The word of these bytes, which are text.
fn word_of(bytes: Vec<u8>) -> Word
    requires { IsUtf8 bytes.items }
    ensures { result ≡ bytes.items }
{
    match String::from_utf8(bytes) {
        Ok(text) => Word::new(text),
        Err(_) => unreachable!(),
    }
}

fn is_word(text: &[u8], word: &[u8]) -> bool
    ensures { result ≡ str_eq_ignore_ascii_case word.now text.now }
{
    word.eq_ignore_ascii_case(text)
}

// The reserved word that a text is, of the first seven.
fn select_word(text: &[u8]) -> Option<Keyword>
    ensures { entry_of keywords text.now ≡ option_or result (entry_of (drop 7 keywords) text.now) }
{
    if is_word(text, b"SELECT") {
        Some(Keyword::Select)
    } else if is_word(text, b"DISTINCT") {
        Some(Keyword::Distinct)
    } else if is_word(text, b"ALL") {
        Some(Keyword::All)
    } else if is_word(text, b"FROM") {
        Some(Keyword::From)
    } else if is_word(text, b"WHERE") {
        Some(Keyword::Where)
    } else if is_word(text, b"GROUP") {
        Some(Keyword::Group)
    } else if is_word(text, b"BY") {
        Some(Keyword::By)
    } else {
        None
    }
}

// The reserved word that a text is, of the next seven.
fn joining_word(text: &[u8]) -> Option<Keyword>
    ensures { entry_of (drop 7 keywords) text.now ≡ option_or result (entry_of (drop 14 keywords) text.now) }
{
    if is_word(text, b"HAVING") {
        Some(Keyword::Having)
    } else if is_word(text, b"UNION") {
        Some(Keyword::Union)
    } else if is_word(text, b"EXCEPT") {
        Some(Keyword::Except)
    } else if is_word(text, b"AS") {
        Some(Keyword::As)
    } else if is_word(text, b"AND") {
        Some(Keyword::And)
    } else if is_word(text, b"OR") {
        Some(Keyword::Or)
    } else if is_word(text, b"NOT") {
        Some(Keyword::Not)
    } else {
        None
    }
}

// The reserved word that a text is, of the last seven.
fn case_word(text: &[u8]) -> Option<Keyword>
    ensures { result ≡ entry_of (drop 14 keywords) text.now }
{
    if is_word(text, b"CASE") {
        Some(Keyword::Case)
    } else if is_word(text, b"WHEN") {
        Some(Keyword::When)
    } else if is_word(text, b"THEN") {
        Some(Keyword::Then)
    } else if is_word(text, b"ELSE") {
        Some(Keyword::Else)
    } else if is_word(text, b"END") {
        Some(Keyword::End)
    } else if is_word(text, b"TRUE") {
        Some(Keyword::True)
    } else if is_word(text, b"FALSE") {
        Some(Keyword::False)
    } else {
        None
    }
}

// The reserved word that a text is.
fn keyword(text: &[u8]) -> Option<Keyword>
    ensures { result ≡ entry_of keywords text.now }
{
    match select_word(text) {
        Some(key) => Some(key),
        None => match joining_word(text) {
            Some(key) => Some(key),
            None => case_word(text),
        },
    }
}

// The name or reserved word that begins a text.
fn word(alloc: Global, text: &[u8], at: usize) -> Result<(usize, Lexeme), AllocError>
    requires some { 0 < length text.now }
    requires begins { begins_name (slice_index text.now 0) ≡ true }
    ensures { IfOk result (λ r. Finds at text.now r.0 r.1) }
{
    let count = word_length(text);
    let (name, _) = text.split_at(count);
    match keyword(name) {
        Some(key) => Ok((count, Lexeme::Key(key))),
        None => {
            let bytes = Vec::from_slice(alloc, name)?;
            Ok((count, Lexeme::Name(word_of(bytes))))
        }
    }
}

// What stands behind a byte of a text, or behind two quotes, if the text doesn't end.
fn behind_unit(quote: u8, b: u8, others: &[u8]) -> Option<&[u8]>
    ensures { option_map (λ x. x.now) result ≡ behind_unit quote b others.now }
{
    if b != quote {
        return Some(others);
    }
    match others.split_first() {
        Some((c, more)) if *c == quote => Some(more),
        _ => None,
    }
}

// How many bytes there are through the quote that ends a text, and the bytes that they stand for.
fn quoted(alloc: Global, text: &[u8], quote: u8) -> Result<Option<(usize, Vec<u8>)>, AllocError>
    ensures { IfOk result (λ o. option_map (λ f. (f.0, f.1.items)) o ≡ quoted_front quote false text.now) }
{
    let mut bytes = Vec::new(alloc);
    let mut count: usize = 0;
    let mut left = text;
    while let Some((b, others)) = left.split_first() {
        let Some(next) = behind_unit(quote, *b, others) else {
            return Ok(Some((count + 1, bytes)));
        };
        bytes.push(*b)?;
        count += left.len() - next.len();
        left = next;
    }
    Ok(None)
}

const MOST: u128 = 0x7fff_ffff_ffff_ffff_ffff_ffff_ffff_ffff;

// The number of digits behind others of this value, if it is not too great.
fn number_after(before: u128, digits: &[u8]) -> Option<u128>
    requires few { before ≤ most }
    requires digits { list_all is_ascii_digit digits.now ≡ true }
    ensures { result ≡ number_after before digits.now }
{
    let mut rest = digits;
    let mut value = before;
    while let Some((digit, others)) = rest.split_first() {
        if value > MOST / 10 {
            return None;
        }
        value = value * 10 + u128::from(*digit - b'0');
        if value > MOST {
            return None;
        }
        rest = others;
    }
    Some(value)
}

// The number of the digits before and behind a point, if it is not too great.
fn number_within(whole: &[u8], fraction: &[u8]) -> Option<i128>
    requires whole { list_all is_ascii_digit whole.now ≡ true }
    requires fraction { list_all is_ascii_digit fraction.now ≡ true }
    ensures { result ≡ number_within (whole.now ++ fraction.now) }
{
    match number_after(0, whole) {
        Some(before) => match number_after(before, fraction) {
            Some(value) => Some(value as i128),
            None => None,
        },
        None => None,
    }
}

// The digits behind a point that begins a text.
fn fraction(text: &[u8]) -> &[u8]
    ensures { result.now ≡ fraction text.now }
{
    match text.split_first() {
        Some((b'.', rest)) => rest.split_at(digits_length(rest)).0,
        _ => text.split_at(0).0,
    }
}

// How many bytes digits take together with the point before them, if there are any.
fn fraction_length(digits: &[u8]) -> usize
    requires { length digits.now < 2 ^ 64 - 1 }
    ensures { result ≡ fraction_length digits.now }
{
    if digits.is_empty() {
        0
    } else {
        digits.len() + 1
    }
}

// The lexeme of a number with so many digits behind its point.
fn scaled(n: i128, digits: u32) -> Lexeme
    ensures { result ≡ scaled n digits }
{
    if digits == 0 {
        Lexeme::Number(n)
    } else {
        Lexeme::Decimal(n, digits)
    }
}

fn begins_with_name(text: &[u8]) -> bool
    ensures { result ≡ begins_name (slice_index text.now 0) }
{
    match text.split_first() {
        Some((b, _)) => begins_name(*b),
        None => false,
    }
}

// Whether digits before and behind a point are too many, or run into a letter or `_`.
fn is_misshapen(whole: &[u8], fraction: &[u8], rest: &[u8]) -> bool
    ensures { result ≡ (nat_lt 39 (length (whole.now ++ fraction.now)) || nat_lt 9 (length fraction.now) || begins_name (slice_index rest.now 0)) }
{
    fraction.len() > 9 || whole.len() > 39 - fraction.len() || begins_with_name(rest)
}

// The number that begins a text.
fn number(text: &[u8], at: usize) -> Result<(usize, Lexeme), LexFault>
    requires some { 0 < length text.now }
    requires begins { is_ascii_digit (slice_index text.now 0) ≡ true }
    ensures found { IfOk result (λ r. Finds at text.now r.0 r.1) }
    ensures fault { IfErr result (λ e. token_at at text.now ≡ Err e) }
{
    let (whole, behind_whole) = text.split_at(digits_length(text));
    let digits = fraction(behind_whole);
    let (_, rest) = behind_whole.split_at(fraction_length(digits));
    if is_misshapen(whole, digits, rest) {
        return Err(LexFault::BadNumber(at));
    }
    match number_within(whole, digits) {
        Some(n) => Ok((text.len() - rest.len(), scaled(n, digits.len() as u32))),
        None => Err(LexFault::BadNumber(at)),
    }
}

fn symbol_of_two(first: u8, second: u8) -> Option<Symbol>
    ensures { result ≡ symbol_named (first ∷ second ∷ []) }
{
    match (first, second) {
        (b'<', b'>') => Some(Symbol::Differs),
        (b'!', b'=') => Some(Symbol::Differs),
        (b'<', b'=') => Some(Symbol::AtMost),
        (b'>', b'=') => Some(Symbol::AtLeast),
        _ => None,
    }
}

fn symbol_of_one(b: u8) -> Option<Symbol>
    ensures { result ≡ symbol_named (b ∷ []) }
{
    match b {
        b'(' => Some(Symbol::Open),
        b')' => Some(Symbol::Close),
        b',' => Some(Symbol::Comma),
        b'.' => Some(Symbol::Dot),
        b'*' => Some(Symbol::Star),
        b'+' => Some(Symbol::Plus),
        b'-' => Some(Symbol::Minus),
        b'=' => Some(Symbol::Equal),
        b'<' => Some(Symbol::Less),
        b'>' => Some(Symbol::Greater),
        b';' => Some(Symbol::Semicolon),
        _ => None,
    }
}

// The longest symbol that a text begins with, and its length.
fn symbol(text: &[u8]) -> Option<(usize, Symbol)>
    ensures { result ≡ symbol_front text.now }
{
    let (first, others) = text.split_first()?;
    if let Some((second, _)) = others.split_first() {
        if let Some(symbol) = symbol_of_two(*first, *second) {
            return Some((2, symbol));
        }
    }
    match symbol_of_one(*first) {
        Some(symbol) => Some((1, symbol)),
        None => None,
    }
}

// The text or quoted name that begins a text.
fn quotation(alloc: Global, text: &[u8], at: usize) -> Result<(usize, Lexeme), LexFault>
    requires utf8 { IsUtf8 text.now }
    requires begins { IsQuote (slice_index text.now 0) }
    ensures found { IfOk result (λ r. Finds at text.now r.0 r.1) }
    ensures fault { IfErr result (λ e. (e ≡ LexFault.NoMemory) ⊎ (token_at at text.now ≡ Err e)) }
{
    let Some((quote, others)) = text.split_first() else {
        unreachable!()
    };
    let Some((count, bytes)) = quoted(alloc, others, *quote)? else {
        return Err(LexFault::OpenText(at));
    };
    let word = word_of(bytes);
    if *quote == b'"' {
        Ok((count + 1, Lexeme::Quoted(word)))
    } else {
        Ok((count + 1, Lexeme::Text(word)))
    }
}

// The symbol that begins a text.
fn symbol_at(text: &[u8], at: usize) -> Result<(usize, Lexeme), LexFault>
    requires some { 0 < length text.now }
    requires others { IsOther (slice_index text.now 0) }
    ensures found { IfOk result (λ r. Finds at text.now r.0 r.1) }
    ensures fault { IfErr result (λ e. token_at at text.now ≡ Err e) }
{
    match symbol(text) {
        Some((count, symbol)) => Ok((count, Lexeme::Symbol(symbol))),
        None => Err(LexFault::BadChar(at)),
    }
}

// Whether a byte begins a name, a number, a text or a quoted name.
fn begins_run(b: u8) -> bool
    ensures { result ≡ begins_run b }
{
    begins_name(b) || b.is_ascii_digit() || b == b'\'' || b == b'"'
}

/// The fault where no more tokens may come.
pub fn one_too_many(text: &[u8], at: usize) -> LexFault
    requires { 0 < length text.now }
    ensures { result ≡ one_too_many (token_at at text.now) }
{
    let Some((b, _rest)) = text.split_first() else {
        unreachable!()
    };
    if begins_run(*b) {
        return LexFault::TooManyTokens;
    }
    match symbol(text) {
        Some(_) => LexFault::TooManyTokens,
        None => LexFault::BadChar(at),
    }
}

/// What the token that begins here is, and how long.
pub fn lexeme_at(alloc: Global, text: &[u8], at: usize) -> Result<(usize, Lexeme), LexFault>
    requires some { 0 < length text.now }
    requires utf8 { IsUtf8 text.now }
    ensures found { IfOk result (λ r. Finds at text.now r.0 r.1) }
    ensures fault { IfErr result (λ e. (e ≡ LexFault.NoMemory) ⊎ (token_at at text.now ≡ Err e)) }
{
    let Some((b, _)) = text.split_first() else {
        unreachable!()
    };
    if begins_name(*b) {
        Ok(word(alloc, text, at)?)
    } else if b.is_ascii_digit() {
        number(text, at)
    } else if *b == b'\'' || *b == b'"' {
        quotation(alloc, text, at)
    } else {
        symbol_at(text, at)
    }
}
