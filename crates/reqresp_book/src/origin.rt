/// Where a message came from: a call of a posting that came in at a port, or a call of a session.
#[derive(Clone, Copy, Debug, PartialEq, Eq)]
pub enum Origin {
    Port { posting: u32, index: u32 },
    Session { session: u32, call: u32 },
}
