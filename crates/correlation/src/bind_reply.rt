/// What binding a correlation variable answers: it was written, the session of that number has the key that it would
/// complete, or it was written before.
#[derive(Clone, Copy, Debug, PartialEq, Eq)]
pub enum BindReply {
    Bound,
    Held(u32),
    Fixed,
}
