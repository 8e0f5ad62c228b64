#![tactic(auto)]
// The theory has no code: specs/ says what places, tables, histories and one line are, proofs/ their laws.
