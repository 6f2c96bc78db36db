// The join: opened on a sealed table, stepped probe by probe in any order, and closed (docs/RULES.md, "One step").
#![tactic(auto)]

mod deliver;
mod emit;
mod end;
mod fetch;
mod probe;
mod record;
