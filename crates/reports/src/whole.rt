// The whole report: what was read, both lists, and what the second adds and drops.
ghost use Rattle.std.specs.Prelude.{◌≡◌, IfOk, string_bytes, Some};
ghost use Rattle.reports.specs.Report.{report_text};

use crate::parts::{Changes, ListPair, ReadBlocks};
use clashes::{ClashLists, Separations};
use std::alloc::{AllocError, Global};
use std::fmt;

// The text of clash lists at two separations.
pub fn report(
    heap: Global,
    lists: &ClashLists,
    separations: Separations,
) -> Result<String, AllocError>
    ensures { IfOk result (λ s. string_bytes s ≡ report_text lists.now separations.first.count separations.second.count) }
{
    ClashReport { lists, separations }.to_string(heap)
}

// Clash lists, as they are printed.
#[derive(Clone, Copy)]
pub struct ClashReport<'a> {
    pub lists: &'a ClashLists,
    pub separations: Separations,
}

impl fmt::Display for ClashReport<'_> {
    ghost output = { λ r. Some (report_text r.lists.now r.separations.first.count r.separations.second.count) };

    fn fmt<W: fmt::Write>(&self, f: &mut fmt::Formatter<W>) -> fmt::Result {
        let report = *self;
        f.write(ReadBlocks {
            lists: report.lists,
        })?;
        f.write(ListPair { report })?;
        f.write(Changes { report })
    }
}
