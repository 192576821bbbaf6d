//! What a plan needs to be run over codes, and for its rows to be read.
ghost use Rattle.std.specs.Prelude.{IfOk};
ghost use Rattle.au_physical.specs.PhysicalKinds.{IsPhysicalFor};
ghost use Rattle.au_physical.specs.Physicals.{physical_tree};
ghost use Rattle.au_exec.specs.Ready.{IsReady};

use crate::answer_kinds::answer_kinds;
use crate::gathering::book_for;
use crate::source::Source;
use crate::theorems::known_kinds_hold;
use au_codes::Codebook;
use au_physical::Physical;
use au_value::{Kind, NoMemory, both};
use std::alloc::Global;

/// A book that knows the texts of a plan and of its sources, and the kinds of the plan's rows.
#[derive(Drop)]
pub(crate) struct Ready {
    pub(crate) book: Codebook,
    pub(crate) kinds: Vec<Kind>,
}

/// The book and the kinds for a plan that is typed over the sources.
pub(crate) fn made_ready(
    alloc: Global,
    plan: &Physical,
    sources: &[Source<'_>],
) -> Result<Ready, NoMemory>
    requires { IsPhysicalFor sources.now (physical_tree plan.now) }
    ensures { IfOk result (λ r. IsReady r.book r.kinds.items (physical_tree plan.now) sources.now) }
{
    known_kinds_hold();
    let (book, kinds) = both(
        book_for(alloc, plan, sources),
        answer_kinds(alloc, plan, sources),
    )?;
    Ok(Ready { book, kinds })
}
