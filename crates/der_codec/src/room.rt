//! How much is reserved for what is read.

/// So much is reserved that reading wants no memory up to it, from the first byte on.
#[derive(Clone, Copy, Debug)]
pub struct Room {
    /// How many values and lists may be open at one time.
    pub depth: usize,
    /// How many pieces there may be: two for each element, and one for each leaf.
    pub nodes: usize,
    /// How many contents octets there may be, of all primitive values together.
    pub bytes: usize,
}
