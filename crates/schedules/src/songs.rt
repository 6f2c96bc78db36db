// The songs of one block: an artist and a start for each.
ghost use Rattle.std.specs.Prelude.{◌≡◌, [], Some};
ghost use Rattle.schedules.specs.Adds.{Added, Noted, Took, number_of, error_text};
ghost use Rattle.schedules.specs.declared.songs.SongError.TheVariants.{NoMemory};

use cells::Full;
use lines::LineRefusal;
use std::alloc::{AllocError, AllocFailed, Global};
use std::error::Error;
use std::fmt;

// A line that brought no row: how many lines of its block stand before it, and why it was refused.
#[derive(Clone, Copy)]
pub struct PassedLine {
    pub index: usize,
    pub refusal: LineRefusal,
}

// The rows in order, two cells each, and the lines that were passed by.
#[derive(Drop)]
pub struct Songs {
    pub cells: Vec<Full>,
    pub passed: Vec<PassedLine>,
}

// Why a block brings no songs.
#[derive(Clone, Copy, Debug, PartialEq, Eq)]
pub enum SongError {
    NoNames,
    TooManyRows,
    NoMemory,
}

impl SongError {
    // The number of the refusal. An Option, since there is none for memory that runs out or a missing names line.
    pub fn number(self) -> Option<u8>
        ensures { result ≡ number_of self }
    {
        match self {
            SongError::TooManyRows => Some(3),
            SongError::NoNames | SongError::NoMemory => None,
        }
    }
}

impl fmt::Display for SongError {
    ghost output = { λ e. Some (error_text e) };

    fn fmt<W: fmt::Write>(&self, f: &mut fmt::Formatter<W>) -> fmt::Result {
        f.write_str(match self {
            SongError::NoNames => "no names line artist,start",
            SongError::TooManyRows => "more than 4096 songs",
            SongError::NoMemory => "there is not enough memory",
        })
    }
}

impl Error for SongError {}

impl From<AllocError> for SongError {
    ghost from_gives = { λ _ r. r ≡ NoMemory };

    fn from(_e: AllocError) -> SongError {
        SongError::NoMemory
    }
}

impl<T: Drop> From<AllocFailed<T>> for SongError {
    ghost from_gives = { λ _ r. r ≡ NoMemory };

    fn from(_e: AllocFailed<T>) -> SongError {
        SongError::NoMemory
    }
}

impl Songs {
    pub(crate) fn new(heap: Global) -> Songs
        ensures { (result.cells.items ≡ []) × (result.passed.items ≡ []) }
    {
        Songs {
            cells: Vec::new(heap),
            passed: Vec::new(heap),
        }
    }

    // Appends the row that a line brings, or notes the line.
    pub(crate) fn take(&mut self, line: Result<[Full; 2], PassedLine>) -> Result<(), SongError>
        ensures { Took self.old line result self.new }
    {
        match line {
            Ok(row) => self.add(row),
            Err(passed) => self.note(passed),
        }
    }

    // Appends a row, unless 4,096 are held.
    fn add(&mut self, row: [Full; 2]) -> Result<(), SongError>
        ensures { Added self.old row result self.new }
    {
        if self.cells.len() >= 2 * MOST_ROWS {
            return Err(SongError::TooManyRows);
        }
        self.cells.extend_from_slice(&row)?;
        Ok(())
    }

    // Notes a line that was passed by.
    fn note(&mut self, line: PassedLine) -> Result<(), SongError>
        ensures { Noted self.old line result self.new }
    {
        self.passed.push(line)?;
        Ok(())
    }
}

// As many rows as a table may have.
const MOST_ROWS: usize = 4096;
