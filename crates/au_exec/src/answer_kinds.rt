//! The kinds of a plan's rows over its sources.
ghost use Rattle.std.specs.Prelude.{◌≡◌, [], IfOk, map, unwrap_or};
ghost use Rattle.au_physical.specs.Physicals.{physical_tree};
ghost use Rattle.au_exec.specs.KnownKinds.{all_held, first_kinds, held_kinds, known_kinds};

use crate::plan_kinds::kinds_of;
use crate::source::Source;
use au_physical::Physical;
use au_value::{Kind, NoMemory};
use std::alloc::Global;

/// The kinds of the rows of a plan over the sources, and none where it has no row because a source has none.
pub(crate) fn answer_kinds(
    alloc: Global,
    plan: &Physical,
    sources: &[Source<'_>],
) -> Result<Vec<Kind>, NoMemory>
    ensures { IfOk result (λ v. v.items ≡ unwrap_or (known_kinds (map first_kinds sources.now) (physical_tree plan.now)) []) }
{
    let tables = source_kinds(alloc, sources)?;
    let found = kinds_of(alloc, plan, &tables)?;
    Ok(known_or_none(alloc, found))
}

// The kinds of each source's first row, if it has one.
fn source_kinds(alloc: Global, sources: &[Source<'_>]) -> Result<Vec<Option<Vec<Kind>>>, NoMemory>
    ensures { IfOk result (λ v. all_held v.items ≡ map first_kinds sources.now) }
{
    let mut tables = Vec::with_capacity(alloc, sources.len())?;
    for source in sources {
        let kinds = source.kinds(alloc)?;
        tables.push(kinds)?;
    }
    Ok(tables)
}

// The kinds, if they are known, and else none.
fn known_or_none(alloc: Global, found: Option<Vec<Kind>>) -> Vec<Kind>
    ensures { result.items ≡ unwrap_or (held_kinds found) [] }
{
    match found {
        Some(kinds) => kinds,
        None => Vec::new(alloc),
    }
}
