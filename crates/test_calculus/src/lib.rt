//! The calculus tried on recorded runs and on small programs: each lemma in proofs/ computes what a session does.
#![tactic(auto)]
