// What the clash list program prints (docs/RULES.md, "The clash list program").
#![tactic(auto)]

mod parts;
mod section;
mod whole;

pub use whole::{ClashReport, report};
