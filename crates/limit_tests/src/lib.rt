// Tests of pages, marks, the left table and sources at their limits (docs/RULES.md, "Pages", "The left table" and "Sources").
#![tactic(auto)]

#[cfg(test)]
mod common;
#[cfg(test)]
mod held;
#[cfg(test)]
mod lines_brought;
#[cfg(test)]
mod pages;
#[cfg(test)]
mod rows_brought;
