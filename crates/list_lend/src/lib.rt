// Lists given for programs.
#![tactic(auto)]

pub mod lend; // a list given: records and places are lent to the entry, and what it leaves is put as lines
pub mod text; // records as events, and answer places as lines
