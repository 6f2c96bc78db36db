// Tests of the edge cases of docs/RULES.md, over the crates that read text and make clash lists.
#![tactic(auto)]

#[cfg(test)]
mod asked;
#[cfg(test)]
mod blocks;
#[cfg(test)]
mod common;
#[cfg(test)]
mod layers;
#[cfg(test)]
mod listed;
#[cfg(test)]
mod printed;
#[cfg(test)]
mod reader;
#[cfg(test)]
mod refusals;
#[cfg(test)]
mod written;
