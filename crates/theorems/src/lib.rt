// What is proved of the definitions of `express` and no code cites: texts cut and joined between tokens, the tokens of a
// declaration, renamings, and one file judged through all stages. There is no code.
#![tactic(auto)]
