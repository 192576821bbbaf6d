//! The kinds of values and of columns.
ghost use Rattle.std.specs.Prelude.{◌≡◌};
ghost use Rattle.au_value.specs.Order.{data_kind};

/// The kind of a column. A value is a whole number, a text or a flag, so its kind is never `Dec`.
#[derive(Clone, Copy, Debug, PartialEq, Eq)]
pub enum Kind {
    Int,
    /// Numbers with this many digits after the point, 1 to 9: a value is the whole number of units of 10^-scale.
    Dec(u32),
    Text,
    Flag,
}

impl Kind {
    /// The kind of the values of a column of this kind: whole numbers for `Dec`.
    pub fn data(self) -> Kind
        ensures { result ≡ data_kind self }
    {
        match self {
            Kind::Dec(_) => Kind::Int,
            kind => kind,
        }
    }
}
