#![tactic(auto)]
// What a call on an area returns: that it was accepted, and the age where an operation ended, or why it was refused.
pub mod age;
pub mod refusals;
pub mod told;

use refusals::Refusal;

// `Ok` for an accepted call, with the age where an operation ended; a write that ends has age 0.
pub type Answer = Result<Option<u64>, Refusal>;
