// What a join is opened with: the output list and the checked order (docs/RULES.md, "Opening a join").
#![tactic(auto)]

mod laws;
mod list;
mod order;
mod output;
mod plan;
mod refusal;
mod request;

pub use laws::{output_lists_stand, worked_orders};
pub use list::ColumnList;
pub use order::{Order, RefusedOrder};
pub use output::OutputList;
pub use plan::Plan;
pub use refusal::OpenRefusal;
