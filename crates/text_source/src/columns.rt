// How many columns the rows of a text have: checked before a source is made.
ghost use Rattle.std.specs.Prelude.{◌≡◌, true, false, MatchResult};
ghost use Rattle.memory.specs.Columns.{are_columns};
ghost use Rattle.text_source.specs.Refusals.{number_of};

use memory::ColumnCount;

#[derive(Clone, Copy, Debug, PartialEq, Eq)]
pub enum TextRefusal {
    Columns = 16,
}

impl TextRefusal {
    // The number by which the refusal goes.
    pub fn number(self) -> u8
        ensures { result ≡ number_of self }
    {
        self as u8
    }
}

// 1 to 16 columns.
pub fn text_columns(count: usize) -> Result<ColumnCount, TextRefusal>
    ensures { MatchResult result (λ c. (are_columns count ≡ true) × (c.count ≡ count)) (λ _. are_columns count ≡ false) }
{
    ColumnCount::new(count).ok_or(TextRefusal::Columns)
}
