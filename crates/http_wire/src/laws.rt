//! Laws of streams of requests.
ghost use Rattle.std.specs.Prelude.{◌≡◌, ◌≤◌, ◌⊎◌, ◌↔◌, ◌∷◌, ◌++◌, [], List, ℕ, length, All, Some};
ghost use Rattle.http_wire.specs.LineForms.{AreLines, AreHeadLines};
ghost use Rattle.http_wire.specs.Heads.{IsHeadText};
ghost use Rattle.http_wire.specs.Lines.{Reaches};
ghost use Rattle.http_wire.specs.Speaking.{Request, IsRequest, Speaks, text_of, HasNoRequest, IsOpen, SpeaksTo};
ghost use Rattle.http_wire.specs.Speaking.{place_behind, last_of, Begun, IsBegun};
ghost use Rattle.http_wire.specs.Readings.{OneReading, IsLongest, SpeaksToNoMore};
ghost use Rattle.http_wire.specs.Bodies.{EndsEarly, IsMalformed};
ghost use Rattle.http_wire.specs.Wires.{HeadEnds, LacksHead};
ghost use Rattle.http_wire.specs.declared.ends.WireEnd.{WireEnd};
ghost use Rattle.http_wire.specs.declared.line_state.LineState.{LineState};

/// The text of a head, in words of lines.
pub fn heads_are_lines()
    ensures { (text : List ℕ) → IsHeadText text ↔ (length text ≤ 16384) × AreHeadLines text }
{}

/// The text of trailers, in words of lines.
pub fn trailers_are_lines()
    ensures { (text : List ℕ) → Reaches LineState.Next 16384 text (length text) ↔ (length text ≤ 16384) × AreLines text }
{}

/// A request with which the rest of a stream begins is one more of its requests.
pub fn one_more_request()
    ensures { (x rest after : List ℕ) (rs : List Request) (r : Request) → Speaks x rs rest → IsRequest r
        → rest ≡ text_of r ++ after → Speaks x (rs ++ r ∷ []) after }
{}

/// A stream begins with one head text at most.
pub fn one_head_text()
    ensures { (x a b after rest : List ℕ) → x ≡ a ++ after → x ≡ b ++ rest → IsHeadText a → IsHeadText b → a ≡ b }
{}

/// A stream has one reading as requests. Of two the shorter has the first requests of the longer, with the same texts,
/// closings and bodies, and what follows is read as the others. None is longer than one behind which no whole request
/// begins. So a stream speaks to one list of requests, where none is answered that isn't read to its end.
pub fn one_reading()
    ensures first { OneReading }
    ensures longest { IsLongest }
    ensures answered { SpeaksToNoMore }
{}

/// Where no head is read, and no read failed, no whole request begins.
pub fn ends_begin_no_request()
    ensures { (x : List ℕ) (place : ℕ) (end : WireEnd) → HeadEnds (Some x) place end
        → (end ≡ WireEnd.ReadFault → ⊥) → HasNoRequest x }
{}

/// Where bytes end inside a head, or before one, no whole request stands in them. So none does in what was read when a
/// read of a head failed.
pub fn short_heads_begin_no_request()
    ensures { (x : List ℕ) → LacksHead x → HasNoRequest x }
{}

/// Where the source ends inside the body of a request, or the body breaks, no whole request begins with that head. So
/// none does in what was read when a read of that body failed.
pub fn unfinished_bodies_begin_no_request()
    ensures { (x tail : List ℕ) (b : Begun) → IsBegun b → x ≡ b.head ++ (b.framed ++ tail)
        → EndsEarly b.at tail ⊎ IsMalformed b.at tail → HasNoRequest x }
{}

/// Where no head is read behind requests that leave the connection open, and no read failed, that is how the stream's
/// requests end: a refused head is the last one, and else there is none behind them.
pub fn ends_are_last()
    ensures { (x rest : List ℕ) (rs : List Request) (end : WireEnd) → Speaks x rs rest → All IsOpen rs
        → HeadEnds (Some rest) (place_behind rs) end → (end ≡ WireEnd.ReadFault → ⊥) → SpeaksTo x rs (last_of end) }
{}
