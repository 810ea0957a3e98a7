//! Forms of a grammar: how parts of a text are written and read, put together from smaller ones.
//! There is no code here: `specs/` says what reading is, and `proofs/` that it is exact.
#![tactic(auto)]
