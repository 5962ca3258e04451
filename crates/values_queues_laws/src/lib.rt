// The blocks on values and queues and the WS scheme, over rows: definitions (specs/) and that they do what the machine does (proofs/). The
// code is crate `decisions`.

#![tactic(auto)]
