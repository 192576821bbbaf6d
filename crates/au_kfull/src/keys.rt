//! Key columns.
ghost use Rattle.std.specs.Prelude.{◌≡◌};
ghost use Rattle.au_kfull.specs.Keys.{keys_of};

use au_value::Range;

/// The columns by which rows are told apart.
#[derive(Clone, Copy)]
pub(crate) enum Keys {
    /// So many leading columns.
    Leading(usize),
    All,
}

/// The keys of a row.
pub(crate) fn keys_of(keys: Keys, cells: &[Range]) -> &[Range]
    ensures { result.now ≡ keys_of keys cells.now }
{
    match keys {
        Keys::Leading(count) if count < cells.len() => &cells[..count],
        _ => cells,
    }
}
