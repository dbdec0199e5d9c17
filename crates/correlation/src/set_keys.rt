use crate::keys::Keys;

/// The complete keys of the set of a number.
#[derive(Drop)]
pub struct SetKeys {
    pub set: u32,
    pub keys: Keys,
}
