// How cells are printed: a missing cell as nothing, a number in decimal, a code by its letters, yes and no by these words.
ghost use Rattle.std.specs.Prelude.{◌≡◌, Some};
ghost use Rattle.cells.specs.Codes.{letters};
ghost use Rattle.cells.specs.Printed.{word_text, full_text, place_text};

use crate::{Code, Full, Place};
use std::fmt;
use std::str::from_utf8;

impl fmt::Display for Code {
    ghost output = { λ c. Some (letters c.bits) };

    fn fmt<W: fmt::Write>(&self, f: &mut fmt::Formatter<W>) -> fmt::Result {
        let mut bytes = [0u8; 8];
        let n = self.write(&mut bytes);
        match from_utf8(&bytes[0..n]) {
            Ok(text) => f.write_str(text),
            Err(_) => unreachable(),
        }
    }
}

fn word(b: bool) -> &'static str
    ensures { result.now ≡ word_text b }
{
    if b { "yes" } else { "no" }
}

impl fmt::Display for Full {
    ghost output = { λ c. Some (full_text c) };

    fn fmt<W: fmt::Write>(&self, f: &mut fmt::Formatter<W>) -> fmt::Result {
        match *self {
            Full::Missing => Ok(()),
            Full::Number(n) => f.write(n),
            Full::Code(c) => f.write(c),
            Full::YesNo(b) => f.write_str(word(b)),
        }
    }
}

impl fmt::Display for Place {
    ghost output = { λ c. Some (place_text c) };

    fn fmt<W: fmt::Write>(&self, f: &mut fmt::Formatter<W>) -> fmt::Result {
        match *self {
            Place::Missing => Ok(()),
            Place::Row(n) => f.write(n),
            Place::YesNo(b) => f.write_str(word(b)),
        }
    }
}
