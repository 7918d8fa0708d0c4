// Laws for a function that is walked by hand and lends a local array as a slice. This crate has no code.
#![tactic(auto)]
