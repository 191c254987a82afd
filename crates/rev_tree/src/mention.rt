//! A node that mentions a hash.
/// A hash, and the node that mentions it.
#[derive(Clone, Copy, PartialEq, Eq)]
pub struct Mention {
    pub hash: u32,
    pub node: u32,
}
