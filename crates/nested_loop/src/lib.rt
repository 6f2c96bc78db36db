// The join on paper: the nested loop, one step of a probe, and what every list of steps promises (docs/RULES.md).
// Nothing here runs a join: the definitions are in specs/, and each law call names a statement that is proved.
#![tactic(auto)]

mod answer;
mod laws;

pub use answer::{Answer, Faulted, NLJState, StepRefusal};
pub use laws::{
    exactly_when_finished, is_joined_table, is_tallied, meets_worked_schedule, mirrors,
    never_more_often, notices_come, of_two_bags, within_bound, within_cuts,
};
