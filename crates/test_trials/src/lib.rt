//! Runs tried on whole histories and texts. Each lemma in proofs/ computes of one what holds of it, and why: which
//! entries are legal, what a run reads and writes over lines and over connections, from bytes to bytes, and which texts
//! are responses.
#![tactic(auto)]
