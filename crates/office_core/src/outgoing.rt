use jolie_trees::Tree;

/// The two queues of what goes out: to the console, and to services elsewhere.
#[derive(Clone, Copy, Debug, PartialEq, Eq)]
pub enum OutKind {
    Console,
    Remote,
}

/// A call of a session of that service as it goes out.
#[derive(Drop)]
pub struct Outgoing {
    pub session: u32,
    pub service: u32,
    pub call: u32,
    pub port: u32,
    pub op: u32,
    pub value: Tree,
    pub wants: bool,
}
