// What output rows are made by.
use join_types::{ColumnIndex, JoinType};

// The join type and the output list.
#[derive(Clone, Copy)]
pub struct JoinOutput<'a> {
    pub join_type: JoinType,
    pub columns: &'a [ColumnIndex],
}
