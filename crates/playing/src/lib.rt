#![tactic(auto)]
// A run file played on an area, on any bytes: its begin, and one decoded move.
pub mod begins;
pub mod moves;
mod taking;
pub mod types;
