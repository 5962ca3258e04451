// Two plants as one model (document 02, item 13). A crate of laws: the join of decoded models and the claim are in specs/, the proof in
// proofs/, and there is no code.

#![tactic(auto)]
