// The two separations that a text is asked at.
use verdicts::Minutes;

#[derive(Clone, Copy, Debug, PartialEq, Eq)]
pub struct Separations {
    pub first: Minutes,
    pub second: Minutes,
}
