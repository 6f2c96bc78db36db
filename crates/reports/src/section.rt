// What is printed of songs that were read, of a line that was passed by, and of a list of clashes.
ghost use Rattle.std.specs.Prelude.{◌++◌, Some, length, codes, decimal, vec_items};
ghost use Rattle.reports.specs.Texts.{clash_line, clash_lines, refused_line, songs_text};

use clashes::{ClashLists, Pair};
use lines::{Line, LineRefusal};
use memory::row_at;
use schedules::{PassedLine, Songs};
use std::fmt;

// A planned and an aired song.
#[derive(Clone, Copy)]
struct ClashLine<'a> {
    planned: Line<'a>,
    aired: Line<'a>,
}

impl fmt::Display for ClashLine<'_> {
    ghost output = { λ c. Some (clash_line c.planned.cells.now c.aired.cells.now) };

    fn fmt<W: fmt::Write>(&self, f: &mut fmt::Formatter<W>) -> fmt::Result {
        let planned = self.planned;
        let aired = self.aired;
        write!(f, "   planned {planned}, aired {aired}\n")
    }
}

// How many clashes there are, and a line for each.
#[derive(Clone, Copy)]
pub(crate) struct Clashes<'a> {
    pub lists: &'a ClashLists,
    pub pairs: &'a [Pair],
}

impl fmt::Display for Clashes<'_> {
    ghost output = { λ c. Some ((decimal (length c.pairs.now) ++ codes ".\n") ++ clash_lines (vec_items c.lists.now.schedule.cells) (vec_items c.lists.now.log.cells) c.pairs.now) };

    fn fmt<W: fmt::Write>(&self, f: &mut fmt::Formatter<W>) -> fmt::Result {
        let count = self.pairs.len();
        write!(f, "{count}.\n")?;
        for pair in self.pairs {
            let planned = Line {
                cells: row_at(&self.lists.schedule.cells, 2, pair.left),
            };
            let aired = Line {
                cells: row_at(&self.lists.log.cells, 2, pair.right),
            };
            f.write(ClashLine { planned, aired })?;
        }
        Ok(())
    }
}

// A line that was passed by, by its number in the text.
#[derive(Clone, Copy)]
struct RefusedLine {
    place: usize,
    refusal: LineRefusal,
}

impl fmt::Display for RefusedLine {
    ghost use Rattle.lines.specs.Rows.{number_of};

    ghost output = { λ l. Some (refused_line l.place (number_of l.refusal) l.refusal) };

    fn fmt<W: fmt::Write>(&self, f: &mut fmt::Formatter<W>) -> fmt::Result {
        let place = self.place;
        let refusal = self.refusal;
        let number = refusal.number();
        write!(f, "   line {place}: refused with {number}: {refusal}\n")
    }
}

// What was read of a block whose first line has a number in the text: how many songs, and the lines that were passed by.
#[derive(Clone, Copy)]
pub(crate) struct SongsRead<'a> {
    pub head: &'static str,
    pub songs: &'a Songs,
    pub first: usize,
}

impl fmt::Display for SongsRead<'_> {
    ghost output = { λ s. Some (songs_text s.head.now s.songs.now s.first) };

    fn fmt<W: fmt::Write>(&self, f: &mut fmt::Formatter<W>) -> fmt::Result {
        let head = self.head;
        let songs = self.songs.cells.len() / 2;
        let passed = self.songs.passed.len();
        write!(f, "{head}. Songs: {songs}. Lines passed by: {passed}.\n")?;
        for line in &self.songs.passed {
            f.write(RefusedLine {
                place: self.first.saturating_add(line.index),
                refusal: line.refusal,
            })?;
        }
        Ok(())
    }
}
