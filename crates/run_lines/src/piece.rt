/// How the read of a piece ended.
#[derive(Clone, Copy, Debug, PartialEq, Eq)]
pub(crate) enum Piece {
    /// There may be more after it.
    More,
    /// The source is at its end.
    End,
    /// The source failed.
    Failed,
}
