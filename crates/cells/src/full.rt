// Full cells: what tables and texts hold.
ghost use Rattle.std.specs.Prelude.{◌≡◌, true, false};
ghost use Rattle.cells.specs.Kinds.{lacks_full, code_in, number_in};
ghost use Rattle.cells.specs.declared.full.Full.{Full};
ghost use Rattle.std.proofs.Common.{rules};

use crate::{Cell, Code};

#[derive(Clone, Copy, PartialEq, Eq)]
pub enum Full {
    Missing,
    Number(i64),
    Code(Code),
    YesNo(bool),
}

impl Full {
    // The number in the cell, where it holds one.
    pub fn number(self) -> Option<i64>
        ensures { result ≡ number_in self }
    {
        match self {
            Full::Number(n) => Some(n),
            _ => None,
        }
    }

    // The code in the cell, where it holds one.
    pub fn code(self) -> Option<Code>
        ensures { result ≡ code_in self }
    {
        match self {
            Full::Code(code) => Some(code),
            _ => None,
        }
    }
}

impl Cell for Full {
    ghost missing = { Full.Missing };

    ghost yes = { Full.YesNo true };

    ghost no = { Full.YesNo false };

    ghost is_missing = { lacks_full };

    ghost tells_missing = { Prim.search rules };

    ghost yes_not_missing = { Prim.search rules };

    ghost no_not_missing = { Prim.search rules };

    ghost yes_not_no = { Prim.search rules };

    fn missing_cell() -> Full {
        Full::Missing
    }

    fn yes_cell() -> Full {
        Full::YesNo(true)
    }

    fn no_cell() -> Full {
        Full::YesNo(false)
    }

    fn is_missing(self) -> bool {
        matches!(self, Full::Missing)
    }
}
