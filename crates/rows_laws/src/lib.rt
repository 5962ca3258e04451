// Transactions and lists in the work buffer: definitions over its numbers (specs/) and what they leave of the machine's lists (proofs/).
// The code is crate `rows`.

#![tactic(auto)]
