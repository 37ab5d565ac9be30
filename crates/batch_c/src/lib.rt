#![tactic(auto)]

// Lists of C calls that follow one another on one batch (document 02, Q-3, Q-6, Q-8 and Q-14). It has no code:
// specs/Fold.antt, specs/Batch.antt and specs/Noting.antt state of the calls of crates `pitskelo` and
// `restart_c` what crates `folding` and `batch` have, and proofs/Folding.antt and proofs/Theorem.antt have it.
