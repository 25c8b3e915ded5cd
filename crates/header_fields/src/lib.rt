// No code: specs/ describes a bundle of the header like the standard's tables, and proofs/ has the laws for reading
// such a table.

#![tactic(auto)]
