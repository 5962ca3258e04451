// The machine of documents 01 and 02. A crate of definitions and laws: the rules are specs/, what is claimed of them and shown is in
// proofs/, and there is no code.

#![tactic(auto)]
