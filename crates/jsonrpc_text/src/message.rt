use jolie_trees::{Text, Tree};
use sqlite_items::Items;

/// The `id` of a request (JSON-RPC 2.0, section 4).
#[derive(Debug, Drop)]
pub enum Id {
    Null,
    /// An integer from -2^63 to 2^63 - 1.
    Int(i64),
    /// An integer from 2^63 to 2^64 - 1.
    Big(u64),
    Text(Text),
    /// No `id` is there: the call is a notification.
    None,
}

/// Why a call is refused before it is posted.
#[derive(Clone, Copy, Debug, PartialEq, Eq)]
pub enum Early {
    /// No JSON value was read.
    Parse,
    /// A value that is no request, an empty array, or a text too long to be read.
    Invalid,
    /// The params make no tree.
    Params,
}

/// A call of a text: its id, and its method and the tree of its params, or why it is refused.
#[derive(Drop)]
pub struct ReadCall {
    pub id: Id,
    pub what: Result<(Text, Tree), Early>,
}

/// What a text posts: one call, or those of a batch in order.
#[derive(Drop)]
pub struct Read {
    pub batch: bool,
    pub calls: Items<ReadCall>,
}
