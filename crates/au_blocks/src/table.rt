//! A table of blocks.
ghost use Rattle.std.specs.Prelude.{◌≡◌};
ghost use Rattle.au_blocks.specs.Held.{held};
ghost use Rattle.au_blocks.specs.Laid.{IsLaid};
ghost use Rattle.au_blocks.specs.Tables.{IsBlockTable, table};

use crate::alternatives::Alternatives;
use crate::blocks::Blocks;
use crate::column::Column;
use crate::extent::Extent;
use std::marker::Model;

/// Columns, and blocks whose rows have one value for each column, of its kind.
#[derive(Drop)]
pub struct Table {
    columns: Vec<Column>,
    rows: Alternatives,
    extents: Vec<Extent>,
}

impl Model for Table {
    ghost use Rattle.au_blocks.specs.Held.{held};
    ghost use Rattle.au_blocks.specs.Laid.{IsLaid};
    ghost use Rattle.au_blocks.specs.Tables.{BlockTable, table};

    ghost Value = { BlockTable };

    ghost view = { λ t. table t.columns.items (held t.rows t.extents.items) };

    ghost invariant = { λ t. IsLaid t.columns.items t.rows t.extents.items };
}

impl Table {
    // The table of these columns, and of blocks at these places among these alternatives.
    pub(crate) fn of(columns: Vec<Column>, rows: Alternatives, extents: Vec<Extent>) -> Table
        requires { IsLaid columns.items rows extents.items }
        ensures { result ≡ table columns.items (held rows extents.items) }
    {
        Table {
            columns,
            rows,
            extents,
        }
    }

    /// The columns, from the left.
    pub fn columns(&self) -> &[Column]
        ensures of { result.now ≡ self.now.columns }
        ensures is_table { IsBlockTable self.now }
    {
        self.columns.as_slice()
    }

    /// The blocks, in their order.
    pub fn blocks(&self) -> Blocks<'_>
        ensures of { result ≡ self.now.blocks }
        ensures is_table { IsBlockTable self.now }
    {
        Blocks::of(&self.rows, self.extents.as_slice())
    }
}
