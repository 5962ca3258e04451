// PREEMPT and RETURN over rows: laws (proofs/) that they do what the machine does. The code is crate `preempt`.

#![tactic(auto)]
