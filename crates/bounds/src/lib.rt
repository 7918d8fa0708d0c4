// How much a file of so many tokens can declare: laws of the grammar. There is no code.
#![tactic(auto)]
