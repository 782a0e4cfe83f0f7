//! What a command is given.

/// What a command is given beside the disk: the peer, what it reads and writes, the time, random bytes, and the keys.
/// It leaves alone what it doesn't ask for.
#[derive(Drop)]
pub struct Environment<'a, P, S, K, C, R, V> {
    pub peer: &'a mut P,
    pub source: &'a mut S,
    pub sink: &'a mut K,
    pub clock: &'a mut C,
    pub dice: &'a mut R,
    pub keys: &'a V,
}
