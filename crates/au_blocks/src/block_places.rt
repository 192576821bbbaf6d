//! Where the blocks lie of records that come one after the other.
ghost use Rattle.std.specs.Prelude.{◌≡◌, ◌++◌, ◌∷◌, [], List, Some, None, filter, map, true, IfOk, IfSome, OnOk};
ghost use Rattle.au_csv.specs.Texts.{Record};
ghost use Rattle.au_blocks.specs.BlockPlaces.{Grows, Lays, Placed, Starts};
ghost use Rattle.au_blocks.specs.Defects.{blocks_defects};
ghost use Rattle.au_blocks.specs.Entries.{entry_blocks, role_of};
ghost use Rattle.au_blocks.specs.Inferring.{is_alternative};
ghost use Rattle.au_blocks.specs.Order.{chosen};
ghost use Rattle.au_blocks.specs.Read.{first};
ghost use Rattle.au_blocks.specs.Tallies.{extents_from, tally_of};

use crate::extent::Extent;
use crate::fields::field;
use crate::format::Format;
use crate::role::Role;
use crate::runs::compare_labels;
use crate::tally::Tally;
use au_csv::Rec;
use au_value::NoMemory;
use std::alloc::Global;
use std::cmp::Ordering;

/// Where those blocks lie that are whole, how many alternatives these have, and, if a last block is begun, its label and what
/// its records amount to so far. In a format without labels each record is a whole block.
#[derive(Drop)]
pub(crate) struct BlockPlaces {
    format: Format,
    extents: Vec<Extent>,
    first: usize,
    begun: bool,
    label: String,
    tally: Tally,
}

impl BlockPlaces {
    /// No record yet.
    pub(crate) fn new(alloc: Global, format: Format) -> BlockPlaces
        ensures { Lays format [] result }
    {
        BlockPlaces {
            format,
            extents: Vec::new(alloc),
            first: 0,
            begun: false,
            label: String::new(alloc),
            tally: Tally::nothing(),
        }
    }

    /// One record more, of this role, unless its label comes before the last one's, or the last block is whole and has a
    /// defect. Then what is held is of no use.
    pub(crate) fn add(&mut self, record: &Rec<'_>, role: Role) -> Result<bool, NoMemory>
        ensures { (f : Format) (rows : List Record) → Lays f rows self.old → role_of f «record».now ≡ Some role → IfOk result (λ goes. goes ≡ true → Lays f (rows ++ «record».now ∷ []) self.new) }
    {
        if !self.format.has_blocks() {
            return self.place(Tally::certain());
        }
        let label = field(record, 0);
        if !self.begun {
            self.start(label, role)?;
            return Ok(true);
        }
        match compare_labels(self.label.as_str(), label) {
            Ordering::Less => {
                if !self.place(self.tally)? {
                    return Ok(false);
                }
                self.start(label, role)?;
                Ok(true)
            }
            Ordering::Equal => Ok(self.grow(role)),
            Ordering::Greater => Ok(false),
        }
    }

    /// Where all blocks lie, unless the last one has a defect.
    pub(crate) fn finish(self) -> Result<Option<Vec<Extent>>, NoMemory>
        ensures places { (f : Format) (rows : List Record) → Lays f rows self → IfOk result (λ found. IfSome found (λ v. v.items ≡ extents_from 0 (map tally_of (entry_blocks f rows)))) }
        ensures sound { (f : Format) (rows : List Record) → Lays f rows self → IfOk result (λ found. IfSome found (λ _. first (blocks_defects (entry_blocks f rows)) ≡ None)) }
        ensures order { (f : Format) (rows : List Record) → Lays f rows self → IfOk result (λ found. IfSome found (λ _. chosen f rows ≡ filter (is_alternative f) rows)) }
    {
        let mut whole = self;
        if whole.begun {
            let tally = whole.tally;
            if !whole.place(tally)? {
                return Ok(None);
            }
        }
        Ok(Some(whole.extents))
    }

    // Puts a whole block behind the others, unless it has a defect, or the alternatives are too many to be counted.
    fn place(&mut self, tally: Tally) -> Result<bool, NoMemory>
        ensures { IfOk result (λ goes. goes ≡ true → Placed tally self.old self.new) }
    {
        if tally.defect(0).is_some() {
            return Ok(false);
        }
        let Some(next) = self.first.checked_add(tally.count) else {
            return Ok(false);
        };
        self.extents.push(tally.extent(self.first))?;
        self.first = next;
        Ok(true)
    }

    // Begins a block with a record of this label and role.
    fn start(&mut self, label: &str, role: Role) -> Result<(), NoMemory>
        ensures { OnOk result (Starts label.now role self.old self.new) }
    {
        self.label.clear();
        self.label.push_str(label)?;
        self.begun = true;
        self.tally = Tally::nothing().with(role);
        Ok(())
    }

    // One record more of the last block, unless its alternatives are too many to be counted.
    fn grow(&mut self, role: Role) -> bool
        ensures { result ≡ true → Grows role self.old self.new }
    {
        if self.tally.count == usize::MAX {
            return false;
        }
        self.tally = self.tally.with(role);
        true
    }
}
