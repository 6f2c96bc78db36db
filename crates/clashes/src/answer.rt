// What the clash lists of a text are.
use crate::Pair;
use schedules::Songs;

// The clashes at two separations, in order, and the difference of the two.
#[derive(Drop)]
pub struct Lists {
    pub first: Vec<Pair>,
    pub second: Vec<Pair>,
    pub added: Vec<Pair>,
    pub dropped: Vec<Pair>,
}

#[derive(Drop)]
pub struct ClashLists {
    pub schedule: Songs,
    pub log: Songs,
    pub lines_before_gap: usize,
    pub lists: Lists,
}
