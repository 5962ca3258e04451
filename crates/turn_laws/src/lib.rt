// One turn over rows: definitions (specs/) and that it does what the machine's turn does (proofs/). The code is crate `turn`.

#![tactic(auto)]
