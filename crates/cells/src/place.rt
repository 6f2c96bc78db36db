// Places: the number of a row that lies elsewhere, from 0.
ghost use Rattle.std.specs.Prelude.{true, false};
ghost use Rattle.cells.specs.Kinds.{lacks_place};
ghost use Rattle.cells.specs.declared.place.Place.{Place};
ghost use Rattle.std.proofs.Common.{rules};

use crate::Cell;

#[derive(Clone, Copy, PartialEq, Eq)]
pub enum Place {
    Missing,
    Row(u32),
    YesNo(bool),
}

impl Cell for Place {
    ghost missing = { Place.Missing };

    ghost yes = { Place.YesNo true };

    ghost no = { Place.YesNo false };

    ghost is_missing = { lacks_place };

    ghost tells_missing = { Prim.search rules };

    ghost yes_not_missing = { Prim.search rules };

    ghost no_not_missing = { Prim.search rules };

    ghost yes_not_no = { Prim.search rules };

    fn missing_cell() -> Place {
        Place::Missing
    }

    fn yes_cell() -> Place {
        Place::YesNo(true)
    }

    fn no_cell() -> Place {
        Place::YesNo(false)
    }

    fn is_missing(self) -> bool {
        matches!(self, Place::Missing)
    }
}
