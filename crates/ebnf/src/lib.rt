// Grammars in extended Backus-Naur form: definitions in specs/, theorems in proofs/. This crate has no code.
#![tactic(auto)]
