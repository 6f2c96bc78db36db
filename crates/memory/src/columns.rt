// How many columns rows have: 1 to 16, checked once and kept in the type.
ghost use Rattle.std.specs.Prelude.{◌≡◌, ◌≤◌, true, false, MatchOption};
ghost use Rattle.memory.specs.Columns.{are_columns};

#[derive(Clone, Copy, PartialEq, Eq)]
pub struct ColumnCount {
    count: usize,
    ghost some: { 1 ≤ count },
    ghost few: { count ≤ 16 },
}

impl ColumnCount {
    // So many columns, if they are 1 to 16. An Option: each maker has a refusal of its own where there is none.
    pub fn new(count: usize) -> Option<ColumnCount>
        ensures { MatchOption result (are_columns count ≡ false) (λ c. (are_columns count ≡ true) × (c.count ≡ count)) }
    {
        if count < 1 || count > 16 {
            return None;
        }
        Some(ColumnCount { count })
    }

    // The number of columns.
    pub fn get(self) -> usize
        ensures { result ≡ self.count }
    {
        self.count
    }
}
