// Draining a source: asking until the end.
ghost use Rattle.std.specs.Prelude.{◌≡◌, ◌*◌};
ghost use Rattle.sources.specs.Drained.{Drains};

use crate::{DrainError, Drained, Source, SourceAnswer};
use std::alloc::Global;

// All that a source has still to bring, in order. Free is the page, unless it is too short.
pub fn drain<S: Source>(
    heap: Global,
    source: &mut S,
    page: &mut [S::Cell],
) -> Result<Drained<S::Cell>, DrainError>
    ensures items { Drains S.Source.items (S.Source.most * S.Source.width source.old) source.old source.new page.old page.new result }
    ensures width { S.Source.width source.new ≡ S.Source.width source.old }
{
    let columns = source.columns();
    let mut brought = Drained {
        cells: Vec::new(heap),
        rows: 0,
        batches: 0,
        waits: 0,
        faults: 0,
    };
    loop {
        match source.ask(page)? {
            SourceAnswer::Batch(rows) => {
                brought.cells.extend_from_slice(&page[..rows * columns])?;
                brought.rows = brought.rows.saturating_add(rows as u64);
                brought.batches = brought.batches.saturating_add(1);
            }
            SourceAnswer::Wait => brought.waits = brought.waits.saturating_add(1),
            SourceAnswer::Fault(_) => brought.faults = brought.faults.saturating_add(1),
            SourceAnswer::End => return Ok(brought),
        }
    }
}
