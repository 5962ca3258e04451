// The blocks on servers over rows: definitions (specs/) and that they do what the machine does (proofs/). The code is crate `servers`.

#![tactic(auto)]
