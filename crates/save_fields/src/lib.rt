// The fields of a saved form.
#![tactic(auto)]

pub mod offsets; // where each field and share stands
pub mod shares; // a slot's share of each field: how many bytes, put into an output, read from a form
