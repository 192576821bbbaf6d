//! Sources as batches of codes.
ghost use Rattle.std.specs.Prelude.{◌≡◌, IfOk, List};
ghost use Rattle.std.specs.List.{AllZip};
ghost use Rattle.au_codes.specs.Codes.{coded_tables};
ghost use Rattle.au_codes.specs.TextCodes.{text_code};
ghost use Rattle.au_plain.specs.PlanKinds.{HaveKinds};
ghost use Rattle.au_value.specs.declared.kinds.Kind.{Kind as KindOf};

use crate::source::Source;
use au_codes::Codebook;
use au_columns::Batch;
use au_value::NoMemory;
use std::alloc::Global;

/// The codes of each source's rows, which have the same kinds.
pub(crate) fn coded_sources(
    alloc: Global,
    book: &Codebook,
    sources: &[Source<'_>],
) -> Result<Vec<Batch>, NoMemory>
    requires kinds { (tk : List (List KindOf)) × AllZip HaveKinds tk sources.now }
    ensures { IfOk result (λ v. v.items ≡ coded_tables (text_code book.now) sources.now) }
{
    let mut batches = Vec::with_capacity(alloc, sources.len())?;
    for source in sources {
        let batch = source.coded(alloc, book)?;
        batches.push(batch)?;
    }
    Ok(batches)
}
