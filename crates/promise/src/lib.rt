// No code: what the user is promised of the desk's answers (specs/), and why it holds (proofs/).
#![tactic(auto)]
