// The ten join types, the sides of an output list, and what exchanging sides does (docs/RULES.md, "Join types").
#![tactic(auto)]

ghost use Rattle.join_types.specs.Laws.{TypesStand};

mod column;
mod kind;
mod produce;

pub use column::{ColumnIndex, JoinSide, exchange_sides};
pub use kind::{JoinType, Rest, TypeRow};
pub use produce::{need_produce_result_in_final, need_produce_right_in_final};

// What holds of all types: the mirror's mirror is the type, and mirroring exchanges rests and sides.
pub fn types_stand()
    ensures { TypesStand }
{}
