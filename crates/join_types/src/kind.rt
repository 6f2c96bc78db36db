// The ten join types and the table of what they deliver.
ghost use Rattle.std.specs.Prelude.{◌≡◌};
ghost use Rattle.join_types.specs.Types.{row_of, mirror, allows};

use crate::JoinSide;

#[derive(Clone, Copy, PartialEq, Eq)]
pub enum JoinType {
    Inner,
    Left,
    Right,
    Full,
    LeftSemi,
    RightSemi,
    LeftAnti,
    RightAnti,
    LeftMark,
    RightMark,
}

// Which rows of a side a type delivers besides pairs.
#[derive(Clone, Copy, PartialEq, Eq)]
pub enum Rest {
    Nothing,
    Unmatched,
    Matched,
    Every,
}

// What a type delivers, which sides its output list may have, and its mirror.
#[derive(Clone, Copy)]
pub struct TypeRow {
    pub pairs: bool,
    pub left_rest: Rest,
    pub right_rest: Rest,
    pub allows_left: bool,
    pub allows_right: bool,
    pub allows_mark: bool,
    pub mirror: JoinType,
}

impl JoinType {
    // The type's row of the table.
    pub fn row(self) -> TypeRow
        ensures { result ≡ row_of self }
    {
        TABLE[self as usize]
    }

    // The type with left and right exchanged.
    pub fn mirror(self) -> JoinType
        ensures { result ≡ mirror self }
    {
        self.row().mirror
    }

    // Whether an output list may have a column of this side.
    pub fn allows(self, side: JoinSide) -> bool
        ensures { result ≡ allows self side }
    {
        let row = self.row();
        match side {
            JoinSide::Left => row.allows_left,
            JoinSide::Right => row.allows_right,
            JoinSide::None => row.allows_mark,
        }
    }
}

// In the order of `JoinType`.
const TABLE: [TypeRow; 10] = [
    TypeRow {
        pairs: true,
        left_rest: Rest::Nothing,
        right_rest: Rest::Nothing,
        allows_left: true,
        allows_right: true,
        allows_mark: false,
        mirror: JoinType::Inner,
    },
    TypeRow {
        pairs: true,
        left_rest: Rest::Unmatched,
        right_rest: Rest::Nothing,
        allows_left: true,
        allows_right: true,
        allows_mark: false,
        mirror: JoinType::Right,
    },
    TypeRow {
        pairs: true,
        left_rest: Rest::Nothing,
        right_rest: Rest::Unmatched,
        allows_left: true,
        allows_right: true,
        allows_mark: false,
        mirror: JoinType::Left,
    },
    TypeRow {
        pairs: true,
        left_rest: Rest::Unmatched,
        right_rest: Rest::Unmatched,
        allows_left: true,
        allows_right: true,
        allows_mark: false,
        mirror: JoinType::Full,
    },
    TypeRow {
        pairs: false,
        left_rest: Rest::Matched,
        right_rest: Rest::Nothing,
        allows_left: true,
        allows_right: false,
        allows_mark: false,
        mirror: JoinType::RightSemi,
    },
    TypeRow {
        pairs: false,
        left_rest: Rest::Nothing,
        right_rest: Rest::Matched,
        allows_left: false,
        allows_right: true,
        allows_mark: false,
        mirror: JoinType::LeftSemi,
    },
    TypeRow {
        pairs: false,
        left_rest: Rest::Unmatched,
        right_rest: Rest::Nothing,
        allows_left: true,
        allows_right: false,
        allows_mark: false,
        mirror: JoinType::RightAnti,
    },
    TypeRow {
        pairs: false,
        left_rest: Rest::Nothing,
        right_rest: Rest::Unmatched,
        allows_left: false,
        allows_right: true,
        allows_mark: false,
        mirror: JoinType::LeftAnti,
    },
    TypeRow {
        pairs: false,
        left_rest: Rest::Every,
        right_rest: Rest::Nothing,
        allows_left: true,
        allows_right: false,
        allows_mark: true,
        mirror: JoinType::RightMark,
    },
    TypeRow {
        pairs: false,
        left_rest: Rest::Nothing,
        right_rest: Rest::Every,
        allows_left: false,
        allows_right: true,
        allows_mark: true,
        mirror: JoinType::LeftMark,
    },
];
