// Verdicts: three-valued answers on a left and a right row (docs/RULES.md, "Verdicts").
#![tactic(auto)]

ghost use Rattle.verdicts.specs.Laws.{SeparationStands, TurnedTwice};
ghost use Rattle.verdicts.specs.Worked.{WorkedPairs};

mod by_place;
mod constant;
mod minutes;
mod refusal;
mod separation;
mod truth;
mod turned;
mod verdict;

pub use by_place::ByPlace;
pub use constant::Constant;
pub use minutes::Minutes;
pub use refusal::MinutesRefusal;
pub use separation::{Separation, SongColumns};
pub use truth::Truth;
pub use turned::TurnedAbout;
pub use verdict::Verdict;

// A verdict that is turned about twice is the verdict itself.
pub fn turned_twice<V: Verdict>()
    ensures { (v : V) → TurnedTwice (V.Verdict.says v) }
{}

// A separation stays the same when rows and columns are exchanged.
pub fn separation_stands()
    ensures { SeparationStands }
{}

// The five pairs of the worked schedule.
pub fn worked_pairs()
    ensures { WorkedPairs }
{}
