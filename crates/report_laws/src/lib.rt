// The report from rows: definitions (specs/) and that it is the machine's (proofs/). The code is crate `report`.

#![tactic(auto)]
