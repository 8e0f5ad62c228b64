#![tactic(auto)]
// The board of document 01: its calls, each of which takes any words, any process and any record. Each tests them and
// makes its `Area` itself: a function that took the rest as a closure would say more than the two lines that it saves.
pub mod making;
pub mod reads;
pub mod showing;
pub mod steps;
pub mod writes;
