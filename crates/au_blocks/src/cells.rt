//! The cells of a column.
ghost use Rattle.std.specs.Prelude.{◌≡◌, ◌<◌, IfSome, length, map};
ghost use Rattle.au_value.specs.declared.value.Value.TheVariants as value;
ghost use Rattle.au_value.specs.Ranges.{certain};
ghost use Rattle.au_blocks.specs.Spans.{cell_at, lent_span, spans_of};
ghost use Rattle.au_blocks.specs.Scalars.{scalar_value};

use crate::cell::Cell;
use crate::item::item;
use crate::scalar::Scalar;
use au_value::Word;
use std::marker::Model;

/// The cells of one column, one for each alternative. Contracts see their list.
#[derive(Drop)]
pub(crate) struct Cells {
    held: Held,
}

/// Values alone lie side by side: numbers in 64 bits, or where one needs more in 128, texts, or flags.
#[derive(Drop)]
pub(crate) enum Held {
    Narrow(Vec<i64>),
    Wide(Vec<i128>),
    Texts(Vec<Word>),
    Flags(Vec<bool>),
    Mixed(Vec<Cell>),
}

/// A cell that is lent: of one value, or else as it is kept.
pub(crate) enum Lent<'a> {
    Certain(Scalar<'a>),
    Mixed(&'a Cell),
}

impl Model for Cells {
    ghost use Rattle.std.specs.Prelude.{List};
    ghost use Rattle.au_value.specs.Ranges.{Span};
    ghost use Rattle.au_blocks.specs.Spans.{spans_of};

    ghost Value = { List Span };

    ghost view = { λ c. spans_of c.held };
}

impl Cells {
    /// Cells that are held in one of these forms.
    pub(crate) fn of(held: Held) -> Cells
        ensures { result ≡ spans_of held }
    {
        Cells { held }
    }

    /// Numbers of 64 bits.
    pub(crate) fn narrow(numbers: Vec<i64>) -> Cells
        ensures { result ≡ map (λ n. certain (value.Int n)) numbers.items }
    {
        Cells {
            held: Held::Narrow(numbers),
        }
    }

    /// Numbers.
    pub(crate) fn wide(numbers: Vec<i128>) -> Cells
        ensures { result ≡ map (λ n. certain (value.Int n)) numbers.items }
    {
        Cells {
            held: Held::Wide(numbers),
        }
    }

    /// Texts.
    pub(crate) fn texts(texts: Vec<Word>) -> Cells
        ensures { result ≡ map (λ t. certain (value.Text t)) texts.items }
    {
        Cells {
            held: Held::Texts(texts),
        }
    }

    /// Flags.
    pub(crate) fn flags(flags: Vec<bool>) -> Cells
        ensures { result ≡ map (λ b. certain (value.Flag b)) flags.items }
    {
        Cells {
            held: Held::Flags(flags),
        }
    }

    /// Any cells.
    pub(crate) fn mixed(cells: Vec<Cell>) -> Cells
        ensures { result ≡ cells.items }
    {
        Cells {
            held: Held::Mixed(cells),
        }
    }

    /// The least value that the cell at a place may have.
    pub(crate) fn lo(&self, place: usize) -> Scalar<'_>
        requires { place < length self.now }
        ensures { scalar_value result ≡ (cell_at place self.now).lo }
    {
        match self.lent(place) {
            Lent::Certain(value) => value,
            Lent::Mixed(cell) => Scalar::of(cell.lo()),
        }
    }

    /// The guess of its value.
    pub(crate) fn sg(&self, place: usize) -> Scalar<'_>
        requires { place < length self.now }
        ensures { scalar_value result ≡ (cell_at place self.now).sg }
    {
        match self.lent(place) {
            Lent::Certain(value) => value,
            Lent::Mixed(cell) => Scalar::of(cell.sg()),
        }
    }

    /// The greatest value that it may have.
    pub(crate) fn hi(&self, place: usize) -> Scalar<'_>
        requires { place < length self.now }
        ensures { scalar_value result ≡ (cell_at place self.now).hi }
    {
        match self.lent(place) {
            Lent::Certain(value) => value,
            Lent::Mixed(cell) => Scalar::of(cell.hi()),
        }
    }

    /// Its numbers, lent, where it has numbers of 64 bits alone.
    pub(crate) fn as_numbers(&self) -> Option<&[i64]>
        ensures { IfSome result (λ numbers. self.now ≡ map (λ n. certain (value.Int n)) numbers.now) }
    {
        match &self.held {
            Held::Narrow(numbers) => Some(numbers),
            _ => None,
        }
    }

    /// Its texts, lent, where it has texts alone.
    pub(crate) fn as_texts(&self) -> Option<&[Word]>
        ensures { IfSome result (λ texts. self.now ≡ map (λ t. certain (value.Text t)) texts.now) }
    {
        match &self.held {
            Held::Texts(texts) => Some(texts),
            _ => None,
        }
    }

    // The cell at a place.
    fn lent(&self, place: usize) -> Lent<'_>
        requires { place < length self.now }
        ensures { lent_span result ≡ cell_at place self.now }
    {
        match &self.held {
            Held::Narrow(numbers) => Lent::Certain(Scalar::Int(numbers[place] as i128)),
            Held::Wide(numbers) => Lent::Certain(Scalar::Int(numbers[place])),
            Held::Texts(texts) => Lent::Certain(Scalar::Text(item(texts, place))),
            Held::Flags(flags) => Lent::Certain(Scalar::Flag(flags[place])),
            Held::Mixed(cells) => Lent::Mixed(item(cells, place)),
        }
    }
}
