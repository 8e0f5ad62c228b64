#![tactic(auto)]
// The bench: reading a file, and the text of a run file's run, on any bytes.
pub mod input;
pub mod printing;
pub mod sizes;
