//! Where a reader of lines is.
ghost use Rattle.std.specs.Prelude.{◌≡◌};
ghost use Rattle.http_wire.specs.Lines.{step};

/// Where a reader is that looks for the end of some lines.
#[derive(Clone, Copy, PartialEq, Eq)]
pub enum LineState {
    /// At the start of a line, with no line before it that isn't empty.
    Start,
    /// After one carriage return, with no line before it that isn't empty.
    StartReturn,
    /// In a line that isn't empty, with more lines to come.
    Line,
    /// At the start of a line that may be the empty one.
    Next,
    /// After one carriage return of a line that may be the empty one.
    NextReturn,
    /// In the last line, whatever it holds.
    Last,
}

/// Where the reader is after a byte, or None if that byte was the last.
pub fn step(place: LineState, byte: u8) -> Option<LineState>
    ensures { result ≡ step place byte }
{
    match (place, byte) {
        (LineState::Start, b'\n') => Some(LineState::Start),
        (LineState::Start, b'\r') => Some(LineState::StartReturn),
        (LineState::StartReturn, b'\n') => Some(LineState::Start),
        (LineState::Line, b'\n') => Some(LineState::Next),
        (LineState::Next, b'\r') => Some(LineState::NextReturn),
        (LineState::Next | LineState::NextReturn | LineState::Last, b'\n') => None,
        (LineState::Last, _) => Some(LineState::Last),
        _ => Some(LineState::Line),
    }
}
