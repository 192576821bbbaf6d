//! The parts of two relations whose product is compressed, as inputs of plans.
ghost use Rattle.std.specs.Prelude.{◌≡◌, ◌&&◌, ◌≤◌, ◌++◌, ◌∷◌, [], IfOk, List, OnOk, false};
ghost use Rattle.au_value.specs.declared.kinds.Kind.{Kind};
ghost use Rattle.au_compress.specs.Kinds.{HasKinds};
ghost use Rattle.au_compress.specs.Splitting.{compressed as compressed_of, compressed_fits, guess_part as guess_part_of};
ghost use Rattle.au_encode.specs.Encode.{encode as encode_of};
ghost use Rattle.au_exec.specs.HeldRows.{rows_of};
ghost use Rattle.au_plain.specs.PlanKinds.{FitRows, FitTables};
ghost use Rattle.au_program.specs.Sources.{part_rows};

use crate::running::held::Held;
use crate::running::input::Input;
use au_algebra::Rel;
use au_annot::Triple;
use au_compress::{compressed, guess_part};
use au_encode::encode;
use au_expr::EvalFault;
use au_plain::PRow;
use au_value::{NoMemory, Range, beside, both};
use std::alloc::Global;

// The encoded guesses of a relation.
fn guess_rows(alloc: Global, rel: &Rel<Range, Triple>) -> Result<Vec<PRow>, NoMemory>
    ensures rows { IfOk result (λ v. rows_of v ≡ encode_of (guess_part_of rel.now)) }
    ensures fit { IfOk result (λ v. FitRows (rows_of v)) }
{
    let guesses = guess_part(alloc, rel)?;
    let rows = encode(alloc, &guesses)?;
    Ok(rows)
}

// What is possible of a relation, in at most so many encoded rows.
fn possible_rows(alloc: Global, rel: &Rel<Range, Triple>, size: u32) -> Result<Vec<PRow>, EvalFault>
    requires size { (1 ≤ size) × (size ≤ 1000) }
    requires one_kind { (ks : List Kind) × HasKinds ks rel.now }
    ensures rows { IfOk result (λ v. rows_of v ≡ encode_of (compressed_of size rel.now)) }
    ensures fit { IfOk result (λ v. FitRows (rows_of v)) }
    ensures overflow { result ≡ Err EvalFault.Overflow → compressed_fits size rel.now ≡ false }
{
    let possible = match compressed(alloc, rel, size) {
        Ok(possible) => possible,
        Err(fault) => return Err(fault),
    };
    match encode(alloc, &possible) {
        Ok(rows) => Ok(rows),
        Err(NoMemory) => Err(EvalFault::NoMemory),
    }
}

// Puts two lists of rows behind the inputs.
fn put_rows<'a>(
    rows: (Vec<PRow>, Vec<PRow>),
    inputs: Vec<Input<'a>>,
) -> Result<Vec<Input<'a>>, NoMemory>
    requires first { FitRows (rows_of rows.0) }
    requires second { FitRows (rows_of rows.1) }
    ensures { IfOk result (λ v. v.items ≡ inputs.entry.items ++ (rows_of rows.0 ∷ rows_of rows.1 ∷ [])) }
{
    let mut inputs = inputs;
    let (first, second) = rows;
    inputs.push(Input::of(Held::of_rows(first)))?;
    inputs.push(Input::of(Held::of_rows(second)))?;
    Ok(inputs)
}

// Puts the guesses of two relations behind the inputs.
fn put_guesses<'a>(
    alloc: Global,
    left: &Rel<Range, Triple>,
    right: &Rel<Range, Triple>,
    inputs: Vec<Input<'a>>,
) -> Result<Vec<Input<'a>>, NoMemory>
    ensures rows { IfOk result (λ v. v.items ≡ inputs.entry.items ++ (encode_of (guess_part_of left.now) ∷ encode_of (guess_part_of right.now) ∷ [])) }
    ensures fit { OnOk result (FitTables (encode_of (guess_part_of left.now) ∷ encode_of (guess_part_of right.now) ∷ [])) }
{
    let rows = both(guess_rows(alloc, left), guess_rows(alloc, right));
    let (rows, inputs) = beside(rows, inputs)?;
    let inputs = put_rows(rows, inputs)?;
    Ok(inputs)
}

// Puts what is possible of two relations behind the inputs.
fn put_possible<'a>(
    alloc: Global,
    left: &Rel<Range, Triple>,
    right: &Rel<Range, Triple>,
    size: u32,
    inputs: Vec<Input<'a>>,
) -> Result<Vec<Input<'a>>, EvalFault>
    requires size { (1 ≤ size) × (size ≤ 1000) }
    requires left_kinds { (ks : List Kind) × HasKinds ks left.now }
    requires right_kinds { (ks : List Kind) × HasKinds ks right.now }
    ensures rows { IfOk result (λ v. v.items ≡ inputs.entry.items ++ (encode_of (compressed_of size left.now) ∷ encode_of (compressed_of size right.now) ∷ [])) }
    ensures fit { OnOk result (FitTables (encode_of (compressed_of size left.now) ∷ encode_of (compressed_of size right.now) ∷ [])) }
    ensures overflow { result ≡ Err EvalFault.Overflow → (compressed_fits size left.now && compressed_fits size right.now) ≡ false }
{
    let left = possible_rows(alloc, left, size);
    let (left, inputs) = beside(left, inputs)?;
    let right = possible_rows(alloc, right, size);
    let (right, held) = beside(right, (left, inputs))?;
    let (left, inputs) = held;
    match put_rows((left, right), inputs) {
        Ok(inputs) => Ok(inputs),
        Err(NoMemory) => Err(EvalFault::NoMemory),
    }
}

/// Puts the parts of two relations behind the inputs.
///
/// `Overflow` comes only where a sum of greatest counts leaves 128 bits.
pub(crate) fn put_parts<'a>(
    alloc: Global,
    left: &Rel<Range, Triple>,
    right: &Rel<Range, Triple>,
    size: u32,
    inputs: Vec<Input<'a>>,
) -> Result<Vec<Input<'a>>, EvalFault>
    requires size { (1 ≤ size) × (size ≤ 1000) }
    requires left_kinds { (ks : List Kind) × HasKinds ks left.now }
    requires right_kinds { (ks : List Kind) × HasKinds ks right.now }
    ensures rows { IfOk result (λ v. v.items ≡ inputs.entry.items ++ part_rows size left.now right.now) }
    ensures fit { OnOk result (FitTables (part_rows size left.now right.now)) }
    ensures overflow { result ≡ Err EvalFault.Overflow → (compressed_fits size left.now && compressed_fits size right.now) ≡ false }
{
    let inputs = match put_guesses(alloc, left, right, inputs) {
        Ok(inputs) => inputs,
        Err(NoMemory) => return Err(EvalFault::NoMemory),
    };
    let inputs = put_possible(alloc, left, right, size, inputs)?;
    Ok(inputs)
}
