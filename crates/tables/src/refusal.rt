// Why a table or a row is refused (docs/RULES.md, "Refusals").
ghost use Rattle.std.specs.Prelude.{◌≡◌};
ghost use Rattle.tables.specs.Refusals.{number_of};

#[derive(Clone, Copy, Debug, PartialEq, Eq)]
pub enum TableRefusal {
    Columns = 1,
    RowLength = 2,
    Full = 3,
}

impl TableRefusal {
    // The number by which the refusal goes. A trait for all refusals would need this line in each impl, and nobody asks it of any refusal.
    pub fn number(self) -> u8
        ensures { result ≡ number_of self }
    {
        self as u8
    }
}
