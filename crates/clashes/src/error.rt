// Why a text has no clash lists, and what is said of it.
ghost use Rattle.std.specs.Prelude.{◌≡◌, Some};
ghost use Rattle.clashes.specs.declared.error.InputError.TheVariants.{NoMemory};
ghost use Rattle.clashes.specs.Errors.{input_text};

use schedules::SongError;
use std::alloc::AllocError;
use std::error::Error;
use std::fmt;

#[derive(Clone, Copy, Debug, PartialEq, Eq)]
pub enum InputError {
    Schedule(SongError),
    Log(SongError),
    NoMemory,
}

impl fmt::Display for InputError {
    ghost output = { λ e. Some (input_text e) };

    fn fmt<W: fmt::Write>(&self, f: &mut fmt::Formatter<W>) -> fmt::Result {
        let (block, place, error) = match *self {
            InputError::Schedule(error) => ("the schedule", "on line 1", error),
            InputError::Log(error) => ("the log", "behind the first empty line", error),
            InputError::NoMemory => return f.write(SongError::NoMemory),
        };
        match error {
            SongError::NoNames => write!(f, "{block} has {error} {place}"),
            // The 3 stands in the words: a match on the error and its number was tried, and its proof stayed open.
            SongError::TooManyRows => write!(f, "{block} is refused with 3: it has {error}"),
            SongError::NoMemory => f.write(error),
        }
    }
}

impl Error for InputError {}

impl From<AllocError> for InputError {
    ghost from_gives = { λ _ e. e ≡ NoMemory };

    fn from(_e: AllocError) -> InputError {
        InputError::NoMemory
    }
}
