#![tactic(auto)]

// The restart theorem (document 01: demand 3). It has no code: specs/History.antt and specs/Claim.antt state
// it, of the definitions that the contracts of crates `run` and `recovery` cite, and
// proofs/Theorem.antt has it. specs/Rows.antt has document 01's rows marked (M).
