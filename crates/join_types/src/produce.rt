// Whether a type delivers a rest of one side. Both functions keep the list of types that the Rust has; the contracts say that
// the table agrees with them, which one function over the table could not show.
ghost use Rattle.std.specs.Prelude.{◌≡◌};
ghost use Rattle.join_types.specs.Types.{row_of, left_rest_of, some_rest};

use crate::JoinType;

// Whether the type has a right rest.
pub fn need_produce_right_in_final(join_type: JoinType) -> bool
    ensures { result ≡ some_rest (row_of join_type).right_rest }
{
    matches!(
        join_type,
        JoinType::Full
            | JoinType::Right
            | JoinType::RightAnti
            | JoinType::RightMark
            | JoinType::RightSemi
    )
}

// Whether the type has a left rest.
pub fn need_produce_result_in_final(join_type: JoinType) -> bool
    ensures { result ≡ some_rest (left_rest_of join_type) }
{
    matches!(
        join_type,
        JoinType::Left
            | JoinType::LeftAnti
            | JoinType::LeftSemi
            | JoinType::LeftMark
            | JoinType::Full
    )
}
