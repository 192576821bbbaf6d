//! The formats of table files.
ghost use Rattle.std.specs.Prelude.{◌≡◌, ◌∷◌, [], bytes_eq, codes, slice_index_or};
ghost use Rattle.std.specs.List.{starts_with};
ghost use Rattle.au_blocks.specs.Headers.{format_of, has_blocks as has_blocks_of, has_copies as has_copies_of, lead as lead_of};

use au_value::Word;

/// What the records of a table file have before the cells of the columns.
#[derive(Clone, Copy)]
pub(crate) enum Format {
    /// Nothing.
    Plain,
    /// A block's label and a role.
    Blocks,
    /// A block's label, a role and numbers of copies.
    Copies,
}

impl Format {
    /// The format that a header begins.
    pub(crate) fn of(header: &[Word]) -> Format
        ensures { result ≡ format_of header.now }
    {
        if !begins_blocks(header) {
            Format::Plain
        } else if has_times(header) {
            Format::Copies
        } else {
            Format::Blocks
        }
    }

    /// Whether records have labels and roles.
    pub(crate) fn has_blocks(self) -> bool
        ensures { result ≡ has_blocks_of self }
    {
        match self {
            Format::Plain => false,
            Format::Blocks | Format::Copies => true,
        }
    }

    /// Whether records have numbers of copies.
    pub(crate) fn has_copies(self) -> bool
        ensures { result ≡ has_copies_of self }
    {
        match self {
            Format::Plain | Format::Blocks => false,
            Format::Copies => true,
        }
    }

    /// How many fields stand before the columns.
    pub(crate) fn lead(self) -> usize
        ensures { result ≡ lead_of self }
    {
        match self {
            Format::Plain => 0,
            Format::Blocks => 2,
            Format::Copies => 3,
        }
    }
}

// Whether a header begins with `_block` and `_role`.
fn begins_blocks(header: &[Word]) -> bool
    ensures { result ≡ starts_with bytes_eq header.now (codes "_block" ∷ codes "_role" ∷ []) }
{
    match header {
        [label, role, ..] => label.as_str() == "_block" && role.as_str() == "_role",
        _ => false,
    }
}

// Whether the third field of a header is `_times`.
fn has_times(header: &[Word]) -> bool
    ensures { result ≡ bytes_eq (slice_index_or header.now 2 []) (codes "_times") }
{
    match header {
        [_, _, times, ..] => times.as_str() == "_times",
        _ => false,
    }
}
