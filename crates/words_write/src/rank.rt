//! How tightly forms hold together.
ghost use Rattle.std.specs.Prelude.{◌≡◌};
ghost use Rattle.words_write.specs.Pushing.{needs_group};

use search_query::Op;

/// The forms of a line, from the loosest to the tightest.
#[derive(Clone, Copy)]
pub(crate) enum Rank {
    Or,
    And,
    Unit,
    Atom,
}

/// Whether what is joined by `op` stands in parentheses where a form at least as tight as `least` is wanted.
pub(crate) fn needs_group(op: Option<Op>, least: Rank) -> bool
    ensures { result ≡ needs_group op least }
{
    match least {
        Rank::Or => false,
        Rank::And => matches!(op, Some(Op::Or)),
        Rank::Unit => matches!(op, Some(Op::Or | Op::And)),
        Rank::Atom => matches!(op, Some(Op::Or | Op::And | Op::Not)),
    }
}
