// Clash lists: the pairs of two tables that a verdict finds true (docs/RULES.md, "The clash list program").
#![tactic(auto)]

mod answer;
mod error;
mod layer;
mod lists;
mod loops;
mod minutes;
mod separations;

pub use answer::{ClashLists, Lists};
pub use error::InputError;
pub use layer::Except;
pub use lists::{clash_lists, compare};
pub use loops::{Pair, pairs, pairs_except};
pub use minutes::read_minutes;
pub use separations::Separations;
