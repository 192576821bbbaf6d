//! The form of the words behind a command.
ghost use Rattle.std.specs.Prelude.{◌≡◌, ◌&&◌, ◌||◌, true, false, codes, length, not, nat_le, nat_lt};
ghost use Rattle.std.specs.List.{list_all, list_any, filter};
ghost use Rattle.std.specs.Str.{bytes_eq};
ghost use Rattle.au_words.specs.Words.{all_options, are_options, has_name, is_count, is_equal_sign, is_form, is_number, is_option, is_taken, is_written, name_part, options_of, positionals, value_part, verb_of};
ghost use Rattle.au_words.specs.CommandLine.{texts};

use crate::words::Command;
use crate::words::numbers::read_number;
use crate::words::table_words::parts;

/// The greatest number of workers.
pub const MAX_WORKERS: u32 = 64;

/// The greatest number of rows that a side of a join is compressed to.
pub const MAX_COMPRESS: u32 = 1000;

/// What a command line's first word names.
#[derive(Clone, Copy, Debug, PartialEq, Eq)]
pub enum Verb {
    /// The answer of a query.
    Query(Command),

    /// A demonstration.
    Demo,

    /// A table with its rows encoded.
    Encode,

    /// The rows of a plan.
    Plain,
}

/// The command that a word names.
pub fn verb_of(word: &str) -> Option<Verb>
    ensures { result ≡ verb_of word.now }
{
    match word {
        "answer" => Some(Verb::Query(Command::Answer)),
        "direct" => Some(Verb::Query(Command::Direct)),
        "guess" => Some(Verb::Query(Command::Guess)),
        "ua" => Some(Verb::Query(Command::Ua)),
        "demo" => Some(Verb::Demo),
        "rewrite" => Some(Verb::Query(Command::Rewrite)),
        "explain" => Some(Verb::Query(Command::Explain)),
        "encode" => Some(Verb::Encode),
        "plain" => Some(Verb::Plain),
        _ => None,
    }
}

// Whether a word is an option.
fn is_option(word: &str) -> bool
    ensures { result ≡ is_option word.now }
{
    word.as_bytes().first() == Some(&b'-')
}

// Whether a word is an option that stands alone.
fn is_flag(word: &str) -> bool
    ensures { result ≡ (bytes_eq word.now (codes "--table") || bytes_eq word.now (codes "--combine")) }
{
    word == "--table" || word == "--combine"
}

// Whether a word is the option of this name with a number from 1 to the greatest.
fn is_numbered(name: &str, most: u32, word: &str) -> bool
    ensures { result ≡ (list_any is_equal_sign word.now && has_name name.now word.now && is_number 1 most (value_part word.now)) }
{
    match parts(word) {
        Some((front, number)) => front == name && read_number(number, 1, most).is_some(),
        None => false,
    }
}

// Whether an option is one that this command takes.
fn is_own_option(verb: Verb, word: &str) -> bool
    ensures { result ≡ list_any (λ option. is_written option word.now) (options_of verb) }
{
    match verb {
        Verb::Query(Command::Answer) => {
            is_flag(word)
                || word == "--points"
                || is_numbered("--workers", MAX_WORKERS, word)
                || is_numbered("--compress", MAX_COMPRESS, word)
        }
        Verb::Query(Command::Direct) => is_flag(word),
        Verb::Demo => is_numbered("--workers", MAX_WORKERS, word),
        Verb::Query(Command::Guess | Command::Ua | Command::Rewrite | Command::Explain)
        | Verb::Encode
        | Verb::Plain => false,
    }
}

// Whether a word is no option or one that this command takes.
fn is_taken(verb: Verb, word: &str) -> bool
    ensures { result ≡ is_taken (options_of verb) word.now }
{
    !is_option(word) || is_own_option(verb, word)
}

fn all_taken(verb: Verb, words: &[&str]) -> bool
    ensures { result ≡ list_all (λ word. is_taken (options_of verb) word.now) words.now }
{
    words.iter().all(|word| is_taken(verb, word))
}

// Whether a word has this name before its first `=`, if there is one.
fn has_name(name: &str, word: &str) -> bool
    ensures { result ≡ has_name name.now word.now }
{
    match parts(word) {
        Some((front, _)) => front == name,
        None => word == name,
    }
}

// How many of the words have this name.
fn count_of(name: &str, words: &[&str]) -> usize
    ensures { result ≡ length (filter (λ word. has_name name.now word.now) words.now) }
{
    words.iter().filter(|word| has_name(name, word)).count()
}

fn is_once(name: &str, words: &[&str]) -> bool
    ensures { result ≡ nat_le (length (filter (has_name name.now) (texts words.now))) 1 }
{
    count_of(name, words) <= 1
}

// Whether each option stands at most once.
fn are_once(words: &[&str]) -> bool
    ensures { result ≡ list_all (λ option. nat_le (length (filter (has_name option.0) (texts words.now))) 1) all_options }
{
    is_once("--table", words)
        && is_once("--combine", words)
        && is_once("--points", words)
        && is_once("--workers", words)
        && is_once("--compress", words)
}

// Whether the options are such as this command takes, each at most once.
fn are_options(verb: Verb, words: &[&str]) -> bool
    ensures { result ≡ are_options (options_of verb) (texts words.now) }
{
    all_taken(verb, words) && are_once(words)
}

fn positional_count(words: &[&str]) -> usize
    ensures { result ≡ length (filter (λ word. not (is_option word.now)) words.now) }
{
    words.iter().filter(|word| !is_option(word)).count()
}

// Whether there are as many positional words as this command takes.
fn is_count(verb: Verb, count: usize) -> bool
    ensures { result ≡ is_count verb count }
{
    match verb {
        Verb::Demo => count == 2,
        Verb::Encode => count == 1,
        Verb::Query(_) | Verb::Plain => count > 1,
    }
}

/// Whether the words behind a command are of its form, the parts of table words and the numbers of a demonstration apart.
pub fn is_form(verb: Verb, words: &[&str]) -> bool
    ensures { result ≡ is_form verb (texts words.now) }
{
    are_options(verb, words) && is_count(verb, positional_count(words))
}
