// The three demands on the public call, as its contract: specs/ has the record, proofs/ the theorem. This crate has no code.
#![tactic(auto)]
