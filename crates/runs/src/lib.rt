#![tactic(auto)]
// Runs have no code of their own: specs/ says what a run file's run has to do with the demands, proofs/ proves it.
