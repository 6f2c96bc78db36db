// An output list as it is asked for, and why it is refused.
ghost use Rattle.std.specs.Prelude.{◌≡◌};
ghost use Rattle.std.specs.List.{list_all};
ghost use Rattle.std.specs.Result.{result_err};
ghost use Rattle.join_types.specs.Types.{allows};
ghost use Rattle.opening.specs.Lists.{is_there, are_there, marks, list_refusal};

use crate::OpenRefusal;
use crate::list::MOST_COLUMNS;
use join_types::{ColumnIndex, JoinSide, JoinType};

// The join type, the column counts of both sides, and the output columns.
#[derive(Clone, Copy)]
pub(crate) struct ColumnRequest<'a> {
    pub join_type: JoinType,
    pub left_columns: usize,
    pub right_columns: usize,
    pub columns: &'a [ColumnIndex],
}

impl ColumnRequest<'_> {
    // Whether there is such a column; the number of a mark is ignored.
    fn is_there(&self, column: ColumnIndex) -> bool
        ensures { result ≡ is_there self.now.left_columns self.now.right_columns column }
    {
        match column.side {
            JoinSide::Left => column.index < self.left_columns,
            JoinSide::Right => column.index < self.right_columns,
            JoinSide::None => true,
        }
    }

    // Whether every left or right column is there.
    fn are_there(&self) -> bool
        ensures { result ≡ are_there self.now.left_columns self.now.right_columns self.now.columns.now }
    {
        self.columns.iter().all(|&column| self.is_there(column))
    }

    // Whether the type allows the side of every column.
    fn sides_allowed(&self) -> bool
        ensures { result ≡ list_all (λ c. allows self.now.join_type c.side) self.now.columns.now }
    {
        self.columns
            .iter()
            .all(|column| self.join_type.allows(column.side))
    }

    // How many mark columns there are.
    fn count_marks(&self) -> usize
        ensures { result ≡ marks self.now.columns.now }
    {
        self.columns
            .iter()
            .filter(|column| matches!(column.side, JoinSide::None))
            .count()
    }

    // Refuses a list that is too long, or has a column that is not there or not allowed.
    pub fn check(&self) -> Result<(), OpenRefusal>
        ensures { result_err result ≡ list_refusal self.now.join_type self.now.left_columns self.now.right_columns self.now.columns.now }
    {
        if self.columns.len() > MOST_COLUMNS {
            return Err(OpenRefusal::TooManyColumns);
        }
        if !self.are_there() {
            return Err(OpenRefusal::NoSuchColumn);
        }
        if !self.sides_allowed() || self.count_marks() > 1 {
            return Err(OpenRefusal::SideNotAllowed);
        }
        Ok(())
    }
}
