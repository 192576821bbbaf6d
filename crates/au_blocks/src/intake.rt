//! What is held of the records of a table file that is read in one pass.
ghost use Rattle.std.specs.Prelude.{◌≡◌, ◌-◌, ℕ, [], ◌∷◌, ◌++◌, List, true, false, length, IfOk, IfSome};
ghost use Rattle.std.specs.List.{All};
ghost use Rattle.au_value.specs.declared.kinds.Kind.{Kind};
ghost use Rattle.au_csv.specs.Texts.{Record};
ghost use Rattle.au_blocks.specs.Headers.{has_copies, lead};
ghost use Rattle.au_blocks.specs.Intakes.{LaysAll, TakesIn};

use crate::alternatives::Alternatives;
use crate::block_places::BlockPlaces;
use crate::extent::Extent;
use crate::filler::Filler;
use crate::fillers::{filled_alternatives, fillers, push_row};
use crate::format::Format;
use crate::row_faults::{has_value, role};
use au_csv::Rec;
use au_value::{Kind, NoMemory};
use std::alloc::Global;

/// The cells of the records that came so far and are alternatives, a column at a time, how many these are, and where the
/// blocks of all records lie.
#[derive(Drop)]
pub(crate) struct Intake {
    pub(crate) format: Format,
    pub(crate) width: usize,
    pub(crate) columns: Vec<Filler>,
    pub(crate) blocks: BlockPlaces,
    pub(crate) count: usize,
}

impl Intake {
    /// No record yet, below a header of this width whose columns have these kinds, with room for so many.
    pub(crate) fn new(
        alloc: Global,
        format: Format,
        width: usize,
        kinds: &[Kind],
        room: usize,
    ) -> Result<Intake, NoMemory>
        ensures { IfOk result (λ intake. TakesIn format width kinds.now [] intake) }
    {
        let columns = fillers(alloc, kinds, room)?;
        Ok(Intake {
            format,
            width,
            columns,
            blocks: BlockPlaces::new(alloc, format),
            count: 0,
        })
    }

    /// Takes in one record more, if it has the width of the header, a role, and values of the columns' kinds that are held
    /// as such, and stands with the others of its block.
    pub(crate) fn take(&mut self, alloc: Global, record: &Rec<'_>) -> Result<bool, NoMemory>
        ensures { (f : Format) (width : ℕ) (kinds : List Kind) (rows : List Record) → TakesIn f width kinds rows self.old → IfOk result (λ goes. goes ≡ true → TakesIn f width kinds (rows ++ «record».now ∷ []) self.new) }
    {
        if record.len() != self.width {
            return Ok(false);
        }
        let Some(role) = role(self.format, record) else {
            return Ok(false);
        };
        if !self.blocks.add(record, role)? {
            return Ok(false);
        }
        if role.is_absent() {
            return Ok(!has_value(record));
        }
        let Some(count) = self.count.checked_add(1) else {
            return Ok(false);
        };
        self.count = count;
        Ok(push_row(alloc, &mut self.columns, self.format, record)?)
    }

    /// The alternatives, block behind block, and where the blocks lie, if the records of each stood together and none has a
    /// defect.
    pub(crate) fn finish(
        self,
        alloc: Global,
    ) -> Result<Option<(Alternatives, Vec<Extent>)>, NoMemory>
        requires { All (λ c. length c.cells ≡ self.count) self.columns.items }
        ensures { (f : Format) (width : ℕ) (kinds : List Kind) (rows : List Record) → has_copies f ≡ false → length kinds ≡ width - lead f → TakesIn f width kinds rows self → IfOk result (λ found. IfSome found (λ p. LaysAll f kinds rows p.0 p.1.items)) }
    {
        let Intake {
            columns,
            blocks,
            count,
            ..
        } = self;
        let Some(extents) = blocks.finish()? else {
            return Ok(None);
        };
        let alternatives = filled_alternatives(alloc, columns, count)?;
        Ok(Some((alternatives, extents)))
    }
}
