// A capture's records, and the verdict on them.
#![tactic(auto)]

pub mod pieces; // whole records checked from a bus on, to the end or the first that differs
pub mod text; // a verdict as the line that is written
