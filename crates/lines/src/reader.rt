// Reads the lines of a text into rows.
ghost use Rattle.std.specs.Prelude.{◌≡◌, ◌+◌, ◌<◌, ◌≤◌, length, drop, Some};
ghost use Rattle.lines.specs.Rows.{Read, number_of, refusal_text};
ghost use Rattle.lines.specs.Written.{before, behind, line_at, passed};

use crate::guard::Guard;
use crate::line::{count, fill, stands};
use cells::Full;
use std::error::Error;
use std::fmt;

// A row was read, or no byte is left. An answer is an enum, as those of a source and of a step are; `Ok(Some(()))` would say less.
#[derive(Clone, Copy, PartialEq, Eq)]
pub enum Answer {
    Row,
    End,
}

// The line has not as many cells as the row, or it has, and one of them is malformed.
#[derive(Clone, Copy, Debug, PartialEq, Eq)]
pub enum LineRefusal {
    Miscounted = 17,
    Malformed = 18,
}

impl LineRefusal {
    // The number by which the refusal goes.
    pub fn number(self) -> u8
        ensures { result ≡ number_of self }
    {
        self as u8
    }
}

impl fmt::Display for LineRefusal {
    ghost output = { λ e. Some (refusal_text e) };

    fn fmt<W: fmt::Write>(&self, f: &mut fmt::Formatter<W>) -> fmt::Result {
        match *self {
            LineRefusal::Miscounted => f.write_str("not as many cells as the row has"),
            LineRefusal::Malformed => f.write_str("a malformed cell"),
        }
    }
}

impl Error for LineRefusal {}

// Text and cursor stay two parameters here and above: a struct of both would need a clause in each contract that the text stays, and the guard holds the cursor alone.

// Fills the row with the cells of the line that begins at the cursor, and passes the line.
// The line is judged before the row is filled, so that a refusal leaves the row as it was; the guard sets the cursor back then.
pub fn read_row(text: &[u8], cursor: &mut usize, row: &mut [Full]) -> Result<Answer, LineRefusal>
    ensures { Read text.now cursor.old row.old result row.new cursor.new }
{
    let start = *cursor;
    if start >= text.len() {
        return Ok(Answer::End);
    }
    let mut guard = Guard {
        cursor,
        start: Some(start),
    };
    let line = take_line(text, guard.cursor);
    if count(line) != row.len() {
        return Err(LineRefusal::Miscounted);
    }
    if !stands(line) {
        return Err(LineRefusal::Malformed);
    }
    fill(line, row);
    guard.start = None;
    Ok(Answer::Row)
}

// The place where the line ends that begins at a place of a text.
pub fn line_end(text: &[u8], at: usize) -> usize
    ensures place { result ≡ at + before 10 (drop at text.now) }
    ensures within { (at ≤ result) × ((at ≤ length text.now → result ≤ length text.now)) }
{
    let Some(rest) = text.get(at..) else {
        return at;
    };
    at + rest.iter().position(|b| *b == b'\n').unwrap_or(rest.len())
}

// Passes the line that begins at the cursor, whatever it holds.
pub fn pass_line(text: &[u8], cursor: &mut usize)
    ensures { cursor.new ≡ passed text.now cursor.old }
{
    if *cursor < text.len() {
        take_line(text, cursor);
    }
}

// The line that begins at the cursor; the cursor moves behind it and its line feed.
fn take_line<'a>(text: &'a [u8], cursor: &mut usize) -> &'a [u8]
    requires { cursor.old < length text.now }
    ensures line { result.now ≡ line_at text.now cursor.old }
    ensures behind { cursor.new ≡ behind text.now cursor.old }
{
    let start = *cursor;
    let end = line_end(text, start);
    *cursor = (end + 1).min(text.len());
    &text[start..end]
}
