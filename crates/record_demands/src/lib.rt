// The demands on the public call, for a table of answers that is lent as records: specs/ has the tables, proofs/ the theorem. This crate has no code.
#![tactic(auto)]
