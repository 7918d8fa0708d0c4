// The definitions and theorems of EXPRESS stand in specs/: this crate has no code.
#![tactic(auto)]
