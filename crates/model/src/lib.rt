// No code: what document 01 defines of a table, in its words (specs/), and the laws of it (proofs/).
#![tactic(auto)]
