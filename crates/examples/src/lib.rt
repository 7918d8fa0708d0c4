// The definitions of `express` computed on whole files: `proofs/` has the files and what they come to. There is no code.
#![tactic(auto)]
