//! The numbers that blocks hold.
ghost use Rattle.std.specs.List.{AllByRecursion};
ghost use Rattle.au_blocks.specs.Scalars.{scalar_value};
ghost use Rattle.au_blocks.specs.Tables.{IsBlockTable, table};
ghost use Rattle.au_encode.specs.Encode.{encode};
ghost use Rattle.au_plain.specs.PlanKinds.{FitRows};
ghost use Rattle.au_translate.specs.HeldNumbers.{FitBlock, FitCandidate, FitSpan, FitValue};
ghost use Rattle.au_translate.specs.Translate.{bounded_blocks};

use au_blocks::{Alternative, Blocks, Candidates, Column, Scalar};

/// Nothing but that the numbers of the encoded rows of some blocks of a table of these columns lie in the range of 128 bits,
/// also where the rows are not made. That is known of a number once it is read, so each number of the blocks is.
pub fn read_numbers(columns: &[Column], blocks: &Blocks<'_>)
    requires { IsBlockTable (table columns.now blocks.now) }
    ensures { FitRows (encode (bounded_blocks blocks.now)) }
{
    let _ = columns;
    read_blocks(blocks);
}

// Each block.
fn read_blocks(blocks: &Blocks<'_>)
    ensures { AllByRecursion FitBlock blocks.now }
{
    for place in 0..blocks.len() {
        read_alternatives(&blocks.get(place).alternatives());
    }
}

// Each alternative.
fn read_alternatives(alternatives: &Candidates<'_>)
    ensures { AllByRecursion FitCandidate alternatives.now }
{
    for place in 0..alternatives.len() {
        read_cells(&alternatives.get(place));
    }
}

/// Nothing but that the numbers of an alternative's cells lie in the range of 128 bits: each of them is read.
pub fn read_cells(alternative: &Alternative<'_>)
    ensures { AllByRecursion FitSpan alternative.now.cells }
{
    for at in 0..alternative.width() {
        read_value(alternative.lo(at));
        read_value(alternative.sg(at));
        read_value(alternative.hi(at));
    }
}

// A value, which may be a number.
fn read_value(value: Scalar<'_>)
    ensures { FitValue (scalar_value value.entry) }
{
    match value {
        Scalar::Int(n) => {
            let _n = n;
        }
        Scalar::Text(_) | Scalar::Flag(_) => {}
    }
}
