// The source over value lines (docs/RULES.md, "Sources").
#![tactic(auto)]

mod columns;
mod text;

pub use columns::{TextRefusal, text_columns};
pub use text::TextSource;
