//! How often something was seen.
ghost use Rattle.std.specs.Prelude.{◌≡◌};
ghost use Rattle.au_blocks.specs.Tallies.{more as more_of, is_again as is_again_of, is_never as is_never_of};

/// How often something was seen: beyond once, it doesn't matter.
#[derive(Clone, Copy)]
pub(crate) enum Seen {
    Never,
    Once,
    Again,
}

impl Seen {
    /// Once more.
    pub(crate) fn more(self) -> Seen
        ensures { result ≡ more_of self }
    {
        match self {
            Seen::Never => Seen::Once,
            Seen::Once | Seen::Again => Seen::Again,
        }
    }

    pub(crate) fn is_never(self) -> bool
        ensures { result ≡ is_never_of self }
    {
        match self {
            Seen::Never => true,
            Seen::Once | Seen::Again => false,
        }
    }

    pub(crate) fn is_again(self) -> bool
        ensures { result ≡ is_again_of self }
    {
        match self {
            Seen::Again => true,
            Seen::Never | Seen::Once => false,
        }
    }
}
