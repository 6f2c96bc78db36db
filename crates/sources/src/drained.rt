// What a source brought, item by item.
ghost use Rattle.std.specs.Prelude.{◌≡◌};
ghost use Rattle.sources.specs.declared.drained.DrainError.TheVariants.{PageTooShort, NoMemory};
ghost use Rattle.sources.specs.DrainRefusals.{drain_number};

use crate::SourceRefusal;
use std::alloc::AllocError;

// All rows, one behind the other, and how many rows, batches, waits and faults there were. A count stops at 2^64 - 1.
#[derive(Drop)]
pub struct Drained<C> {
    pub cells: Vec<C>,
    pub rows: u64,
    pub batches: u64,
    pub waits: u64,
    pub faults: u64,
}

#[derive(Clone, Copy, Debug, PartialEq, Eq)]
pub enum DrainError {
    PageTooShort,
    NoMemory,
}

impl DrainError {
    // The number of the refusal. An Option, since memory that runs out has none.
    pub fn number(self) -> Option<u8>
        ensures { result ≡ drain_number self }
    {
        match self {
            DrainError::PageTooShort => Some(SourceRefusal::PageTooShort.number()),
            DrainError::NoMemory => None,
        }
    }
}

impl From<SourceRefusal> for DrainError {
    ghost from_gives = { λ _ r. r ≡ PageTooShort };

    fn from(refusal: SourceRefusal) -> DrainError {
        match refusal {
            SourceRefusal::PageTooShort => DrainError::PageTooShort,
        }
    }
}

impl From<AllocError> for DrainError {
    ghost from_gives = { λ _ r. r ≡ NoMemory };

    fn from(_e: AllocError) -> DrainError {
        DrainError::NoMemory
    }
}
