// Three-valued truth, with AND as in ISO/IEC 9075-2.
ghost use Rattle.std.specs.Prelude.{◌≡◌};
ghost use Rattle.verdicts.specs.Truths.{both, is_true, truth_of};

#[derive(Clone, Copy, Debug, PartialEq, Eq)]
pub enum Truth {
    True,
    False,
    Absent,
}

impl Truth {
    // False where one is false, else absent where one is absent.
    pub fn and(self, other: Truth) -> Truth
        ensures { result ≡ both self other }
    {
        match (self, other) {
            (Truth::False, _) | (_, Truth::False) => Truth::False,
            (Truth::Absent, _) | (_, Truth::Absent) => Truth::Absent,
            (Truth::True, Truth::True) => Truth::True,
        }
    }

    // Whether a pair comes of it: absent counts as false.
    pub fn is_true(self) -> bool
        ensures { result ≡ is_true self }
    {
        self == Truth::True
    }
}

// What is known to be true or false.
impl From<bool> for Truth {
    ghost from_gives = { λ b t. t ≡ truth_of b };

    fn from(b: bool) -> Truth {
        if b { Truth::True } else { Truth::False }
    }
}
