//! A cell that is lent by a row, or was made.
ghost use Rattle.std.specs.Prelude.{◌≡◌};
ghost use Rattle.au_expr.specs.Views.{seen};

/// A cell of a row, or one that an evaluation made.
#[derive(Drop)]
pub(crate) enum View<'a, C> {
    Lent(&'a C),
    Made(C),
}

/// The cell that is seen.
pub(crate) fn cell<'b, C>(view: &'b View<'_, C>) -> &'b C
    ensures { result.now ≡ seen view.now }
{
    match view {
        View::Lent(c) => c,
        View::Made(c) => c,
    }
}
