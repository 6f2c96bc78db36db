// Why an order is refused (docs/RULES.md, "Refusals").
ghost use Rattle.std.specs.Prelude.{◌≡◌};
ghost use Rattle.opening.specs.Refusals.{number_of};

// Each with the number by which it goes.
#[derive(Clone, Copy, Debug, PartialEq, Eq)]
pub enum OpenRefusal {
    Probes = 4,
    BatchSize = 5,
    RightColumns = 6,
    TooManyColumns = 7,
    NoSuchColumn = 8,
    SideNotAllowed = 9,
}

impl OpenRefusal {
    // The number by which the refusal goes.
    pub fn number(self) -> u8
        ensures { result ≡ number_of self }
    {
        self as u8
    }
}
