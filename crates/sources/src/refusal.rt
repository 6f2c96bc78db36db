// Why cells make no table.
ghost use Rattle.std.specs.Prelude.{◌≡◌};
ghost use Rattle.sources.specs.Refusals.{table_number};

#[derive(Clone, Copy, Debug, PartialEq, Eq)]
pub enum ShapeRefusal {
    BatchLength = 14,
    NotWholeRows = 16,
}

impl ShapeRefusal {
    // The number by which the refusal goes.
    pub fn number(self) -> u8
        ensures { result ≡ table_number self }
    {
        self as u8
    }
}
