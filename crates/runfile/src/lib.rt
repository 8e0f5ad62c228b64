#![tactic(auto)]
// Run files: what one is, its header, its moves one by one and its values, on any bytes.
mod bytes;
pub mod file;
pub mod kind;
pub mod moves;
pub mod types;
pub mod values;
