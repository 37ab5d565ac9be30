#![tactic(auto)]

// Demand 3 of the C calls. It has no code: specs/Calls.antt has lists of calls of pitskelo_recover and
// pitskelo_run over bytes, specs/From.antt what they answer where the uncut run begins at any frame, and
// proofs/Theorem.antt shows that each is a history of crate `restart`, so that its claim holds.
