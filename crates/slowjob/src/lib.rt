// How far one slow job reaches (document 02, item 14). A crate of laws: the claim is in specs/SlowJob.antt, its proof in
// proofs/, and there is no code.

#![tactic(auto)]
