// Why a length is refused, by its number and in words.
ghost use Rattle.std.specs.Prelude.{◌≡◌, Some};
ghost use Rattle.verdicts.specs.Refusals.{number_of, refusal_text};

use std::error::Error;
use std::fmt;

#[derive(Clone, Copy, Debug, PartialEq, Eq)]
pub enum MinutesRefusal {
    OutOfRange = 15,
}

impl MinutesRefusal {
    // The number by which the refusal goes.
    pub fn number(self) -> u8
        ensures { result ≡ number_of self }
    {
        self as u8
    }
}

impl fmt::Display for MinutesRefusal {
    ghost output = { λ e. Some (refusal_text e) };

    fn fmt<W: fmt::Write>(&self, f: &mut fmt::Formatter<W>) -> fmt::Result {
        f.write_str(match self {
            MinutesRefusal::OutOfRange => "a separation is a number of minutes from 1 to 1440",
        })
    }
}

impl Error for MinutesRefusal {}
