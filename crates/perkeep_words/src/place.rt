//! The places of the words that the program's edge needs.

/// The places of DIR and of ADDR in the words of a line, counted from 0 with the command's name. None where no line has
/// it.
#[derive(Clone, Copy, Debug, PartialEq, Eq)]
pub struct Places {
    /// The place of DIR.
    pub dir: Option<usize>,
    /// The place of ADDR.
    pub addr: Option<usize>,
}
