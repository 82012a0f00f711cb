// The paper's case table. It stands in specs/Table.antt, and proofs/Cases.antt shows that it holds.
#![tactic(auto)]
