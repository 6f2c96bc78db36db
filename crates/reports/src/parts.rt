// The three parts of a report: what was read, the lists at both separations, and what the second adds and drops.
ghost use Rattle.std.specs.Prelude.{Some};
ghost use Rattle.reports.specs.Report.{read_text, list_text, change_text};

use crate::ClashReport;
use crate::section::{Clashes, SongsRead};
use clashes::ClashLists;
use std::fmt;

// What was read: the log begins behind the schedule's lines and the empty line.
#[derive(Clone, Copy)]
pub(crate) struct ReadBlocks<'a> {
    pub lists: &'a ClashLists,
}

impl fmt::Display for ReadBlocks<'_> {
    ghost output = { λ r. Some (read_text r.lists.now) };

    fn fmt<W: fmt::Write>(&self, f: &mut fmt::Formatter<W>) -> fmt::Result {
        f.write(SongsRead {
            head: "1. Read the schedule",
            songs: &self.lists.schedule,
            first: 1,
        })?;
        f.write(SongsRead {
            head: "2. Read the log",
            songs: &self.lists.log,
            first: self.lists.lines_before_gap.saturating_add(2),
        })
    }
}

// The lists at both separations.
#[derive(Clone, Copy)]
pub(crate) struct ListPair<'a> {
    pub report: ClashReport<'a>,
}

impl fmt::Display for ListPair<'_> {
    ghost output = { λ l. Some (list_text l.report.lists.now l.report.separations.first.count l.report.separations.second.count) };

    fn fmt<W: fmt::Write>(&self, f: &mut fmt::Formatter<W>) -> fmt::Result {
        let ClashReport { lists, separations } = self.report;
        let near = separations.first;
        let wide = separations.second;
        let first = Clashes {
            lists,
            pairs: &lists.lists.first,
        };
        write!(f, "3. Clashes at {near} minutes: {first}")?;
        let second = Clashes {
            lists,
            pairs: &lists.lists.second,
        };
        write!(f, "4. Clashes at {wide} minutes: {second}")
    }
}

// What the second list has and the first has not, and the other way about.
#[derive(Clone, Copy)]
pub(crate) struct Changes<'a> {
    pub report: ClashReport<'a>,
}

impl fmt::Display for Changes<'_> {
    ghost output = { λ c. Some (change_text c.report.lists.now c.report.separations.first.count c.report.separations.second.count) };

    fn fmt<W: fmt::Write>(&self, f: &mut fmt::Formatter<W>) -> fmt::Result {
        let ClashReport { lists, separations } = self.report;
        let near = separations.first;
        let wide = separations.second;
        let added = Clashes {
            lists,
            pairs: &lists.lists.added,
        };
        write!(f, "5. Clashes that {wide} minutes add to {near}: {added}")?;
        let dropped = Clashes {
            lists,
            pairs: &lists.lists.dropped,
        };
        write!(
            f,
            "6. Clashes that {wide} minutes drop from {near}: {dropped}"
        )
    }
}
