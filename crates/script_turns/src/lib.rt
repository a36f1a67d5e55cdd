// The steps of the script program, which take all its decisions.
#![tactic(auto)]

pub mod frame; // its beginning and end, and what is kept between its turns
pub mod turns; // records run, lines put
