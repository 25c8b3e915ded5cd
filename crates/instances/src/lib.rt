// The instances of Specification 14 in one table. There is no code here; specs/ states the table and proofs/ proves
// it.

#![tactic(auto)]
