// Lists, edges and orders that know nothing of EXPRESS: the definitions stand in specs/, their laws in proofs/. This crate has no code.
#![tactic(auto)]
