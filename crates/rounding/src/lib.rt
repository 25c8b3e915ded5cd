// Laws of rounded arithmetic on binary32 numbers, for all values, infinities and NaN included: specs/ has the definitions,
// proofs/ the laws. There is no code.
#![tactic(auto)]
