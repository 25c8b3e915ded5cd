// Cut files written and read back: the theorem on both (Specification 16.9). There is no code here; specs/ states the
// theorem and proofs/ proves it.

#![tactic(auto)]
