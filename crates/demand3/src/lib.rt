// Demand 3: the book, claims about lists of calls, and the theorem. It has no code: specs/Demand3.antt states the claim, proofs/Demand3.antt proves it.
#![tactic(auto)]
