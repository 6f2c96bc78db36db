// An output list as plain data: the join type, the column counts of both sides, and up to 32 output columns.
ghost use Rattle.std.specs.Prelude.{◌≡◌, ◌≤◌, min, length};
ghost use Rattle.opening.specs.Lists.{columns_of, list_of, exchanged_list};

use crate::request::ColumnRequest;
use join_types::{ColumnIndex, JoinSide, JoinType, exchange_sides};
use memory::put_row;

// As many output columns as a list may have.
pub(crate) const MOST_COLUMNS: usize = 32;

// The columns stand in the first `count` of 32 places: a join keeps its list in its own record, and no heap.
#[derive(Clone, Copy)]
pub struct ColumnList {
    pub join_type: JoinType,
    pub left_columns: usize,
    pub right_columns: usize,
    pub count: usize,
    pub columns: [ColumnIndex; 32],
}

impl ColumnList {
    // The list that is asked for.
    pub(crate) fn new(request: &ColumnRequest) -> ColumnList
        requires { length request.now.columns.now ≤ 32 }
        ensures { result ≡ list_of request.now.join_type request.now.left_columns request.now.right_columns request.now.columns.now }
    {
        let mut columns = [ColumnIndex {
            index: 0,
            side: JoinSide::Left,
        }; 32];
        // There is room for 32.
        let _ = put_row(&mut columns, 0, request.columns);
        ColumnList {
            join_type: request.join_type,
            left_columns: request.left_columns,
            right_columns: request.right_columns,
            count: request.columns.len(),
            columns,
        }
    }

    // The columns in their order.
    pub fn as_slice(&self) -> &[ColumnIndex]
        ensures columns { result.now ≡ columns_of self.now }
        ensures long { length result.now ≡ min self.now.count 32 }
    {
        &self.columns[..self.count.min(MOST_COLUMNS)]
    }

    // The list with its sides exchanged.
    pub(crate) fn exchanged(self) -> ColumnList
        ensures { result ≡ exchanged_list self }
    {
        let mut columns = self.columns;
        exchange_sides(&mut columns);
        ColumnList {
            join_type: self.join_type.mirror(),
            left_columns: self.right_columns,
            right_columns: self.left_columns,
            count: self.count,
            columns,
        }
    }
}
