/// Does nothing: with it the examples of `proofs/Computed.antt` are checked.
#[tactic(auto, using(crate::proofs::Computed::example))]
pub(crate) fn examples() {}
