// Walks over the lines of a text, which keep their place and how many lines lie before it.
ghost use Rattle.std.specs.Prelude.{◌≡◌, ◌≤◌, length};

use crate::PassedLine;
use cells::Full;
use lines::{Answer, line_end};
use texts::next_line;

// The lines of a text, from the place where one of them begins.
#[derive(Clone, Copy)]
pub(crate) struct Lines<'a> {
    text: &'a [u8],
    pub(crate) at: usize,
    pub(crate) before: usize,
    ghost few: { before ≤ at },
    ghost within: { at ≤ length text.now },
}

impl<'a> Lines<'a> {
    // All lines of a text.
    pub(crate) fn new(text: &'a [u8]) -> Lines<'a>
        ensures { (result.text.now ≡ text.now) × (result.at ≡ 0) × (result.before ≡ 0) }
    {
        Lines {
            text,
            at: 0,
            before: 0,
        }
    }

    // The same lines as rows of two cells.
    pub(crate) fn rows(self) -> RowLines<'a>
        ensures { result.lines ≡ self.entry }
    {
        RowLines { lines: self }
    }
}

impl<'a> Iterator for Lines<'a> {
    ghost use Rattle.schedules.specs.Walks.{Passes};
    ghost use Rattle.std.specs.Iterator.{at_most};
    ghost use Rattle.std.specs.Prelude.{◌-◌};

    type Item = &'a [u8];

    ghost next_gives = { Passes };

    ghost remaining = { λ s. at_most (length s.text.now - s.at) };

    fn next(&mut self) -> Option<&'a [u8]> {
        let Lines { text, at, before } = *self;
        if at == text.len() {
            return None;
        }
        let end = line_end(text, at);
        *self = Lines {
            text,
            at: (end + 1).min(text.len()),
            before: before + 1,
        };
        Some(&text[at..end])
    }
}

// What each line brings: a row, or a line that is passed by.
#[derive(Clone, Copy)]
pub(crate) struct RowLines<'a> {
    lines: Lines<'a>,
}

impl Iterator for RowLines<'_> {
    ghost use Rattle.schedules.specs.Walks.{brought};
    ghost use Rattle.std.specs.Iterator.{YieldsFirst, item_count};

    type Item = Result<[Full; 2], PassedLine>;

    ghost next_gives = { YieldsFirst brought };

    ghost remaining = { item_count brought };

    fn next(&mut self) -> Option<Result<[Full; 2], PassedLine>> {
        let Lines { text, at, before } = self.lines;
        let mut cursor = at;
        let mut row = [Full::Missing; 2];
        let read = match next_line(text, &mut cursor, &mut row) {
            Ok(Answer::Row) => Ok(row),
            Ok(Answer::End) => return None,
            Err(refusal) => Err(PassedLine {
                index: before,
                refusal,
            }),
        };
        self.lines = Lines {
            text,
            at: cursor,
            before: before + 1,
        };
        Some(read)
    }
}
