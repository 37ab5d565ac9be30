#![tactic(auto)]

// Lists of calls that follow one another on one batch (document 02, Q-3, Q-6, Q-8 and Q-14). It has no code:
// specs/Until.antt has the sets of lists until Q-3, specs/Batch.antt states what holds of a list that goes on
// with a chip that an earlier one left, as it is or folded, specs/Noting.antt of one with notes in spent
// cells, and proofs/Theorem.antt has both.
