// The length of a separation: 1 to 1,440 minutes.
ghost use Rattle.std.specs.Prelude.{◌≡◌, ◌*◌, ◌≤◌, true, false, MatchResult};
ghost use Rattle.verdicts.specs.Lengths.{are_minutes};

use crate::MinutesRefusal;
use std::fmt;

#[derive(Clone, Copy, Debug, PartialEq, Eq)]
pub struct Minutes {
    count: u32,
    ghost some: { 1 ≤ count },
    ghost few: { count ≤ 1440 },
}

// The minutes of a number from 1 to 1,440.
impl TryFrom<u32> for Minutes {
    type Error = MinutesRefusal;

    ghost try_from_gives = { λ count r. MatchResult r (λ m. (are_minutes count ≡ true) × (m.count ≡ count)) (λ _. are_minutes count ≡ false) };

    fn try_from(count: u32) -> Result<Minutes, MinutesRefusal> {
        if count < 1 || count > 1440 {
            return Err(MinutesRefusal::OutOfRange);
        }
        Ok(Minutes { count })
    }
}

// Minutes print as their count.
impl fmt::Display for Minutes {
    ghost use Rattle.std.specs.Prelude.{Some, decimal};

    ghost output = { λ m. Some (decimal m.count) };

    fn fmt<W: fmt::Write>(&self, f: &mut fmt::Formatter<W>) -> fmt::Result {
        f.write(self.count)
    }
}

impl Minutes {
    pub fn count(self) -> u32
        ensures { result ≡ self.count }
    {
        self.count
    }

    pub fn seconds(self) -> u64
        ensures { result ≡ 60 * self.count }
    {
        60 * u64::from(self.count)
    }
}
