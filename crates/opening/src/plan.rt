// What a join keeps of its order, as plain data like all that it keeps; what holds of it is `Planned`.
use crate::ColumnList;

#[derive(Clone, Copy)]
pub struct Plan {
    pub list: ColumnList,
    pub probes: usize,
    pub batch_size: usize,
    pub left_rows: usize,
}
