// Where the bytes of a string come from, and what a typed file says of its string constants: laws of the values of nodes. There is no code.
#![tactic(auto)]
