//! A cell that is no value of its column's form.
ghost use Rattle.std.specs.Prelude.{◌≡◌, IfOk};
ghost use Rattle.au_value.specs.Ranges.{certain};

use au_value::{NoMemory, Range, Value};
use std::alloc::Global;
use std::marker::Model;

/// What is known of a value: itself, or a range that holds it. Contracts see a range in either case; a value is kept once.
#[derive(Drop)]
pub(crate) struct Cell {
    content: Content,
}

/// A value, or a range. Ranges are rare and three values wide, so that they stand apart.
#[derive(Drop)]
pub(crate) enum Content {
    Certain(Value),
    Between(Box<Range>),
}

impl Model for Cell {
    ghost use Rattle.au_value.specs.Ranges.{Span};
    ghost use Rattle.au_blocks.specs.Cells.{span_of};

    ghost Value = { Span };

    ghost view = { λ c. span_of c.content };
}

impl Cell {
    // The cell of one value. It takes no memory.
    pub(crate) fn certain(value: Value) -> Cell
        ensures { result ≡ certain value }
    {
        Cell {
            content: Content::Certain(value),
        }
    }

    // The cell of a range.
    pub(crate) fn between(alloc: Global, range: Range) -> Result<Cell, NoMemory>
        ensures { IfOk result (λ c. c ≡ range) }
    {
        Ok(Cell {
            content: Content::Between(Box::new(alloc, range)?),
        })
    }

    /// The least value that the cell may have.
    pub(crate) fn lo(&self) -> &Value
        ensures { result.now ≡ self.now.lo }
    {
        match &self.content {
            Content::Certain(value) => value,
            Content::Between(range) => range.lo(),
        }
    }

    /// The guess of the cell's value.
    pub(crate) fn sg(&self) -> &Value
        ensures { result.now ≡ self.now.sg }
    {
        match &self.content {
            Content::Certain(value) => value,
            Content::Between(range) => range.sg(),
        }
    }

    /// The greatest value that the cell may have.
    pub(crate) fn hi(&self) -> &Value
        ensures { result.now ≡ self.now.hi }
    {
        match &self.content {
            Content::Certain(value) => value,
            Content::Between(range) => range.hi(),
        }
    }
}
