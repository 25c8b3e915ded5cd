// Lists of calls of a run: the theorem on rectangles cut from a larger picture (Specification 13.6). There is no code
// here; specs/ states the theorem and proofs/ proves it.

#![tactic(auto)]
