//! One step of a reader: from a stage and bytes to the next stage, how many of the bytes were used, and events.
ghost use Rattle.std.specs.Prelude.{◌≡◌, ◌<◌, ◌≤◌, ◌++◌, ℕ, List, [], length, drop, slice_index};
ghost use Rattle.std.specs.Prelude.{IfOk, OnOk, true, false};
ghost use Rattle.multipart_read.specs.Body.{BodyRun, Steps, Passable, Waits, refused_at};
ghost use Rattle.multipart_read.specs.Tokens.{tokens_of, content};

use crate::events::{PartEvent, PartEvents, PartFault};
use crate::heads::{Section, part_name, section_in};
use crate::limits::{MAX_BEFORE, MAX_FIELDS, MAX_HEAD, MAX_PART, MAX_PARTS};
use crate::marks::{Mark, first_mark};
use blobref::{NoMemory, Octets};
use httparse::spans::EMPTY_HEADER_SPAN;
use std::alloc::Global;

/// Where a reader stands.
#[derive(Clone, Copy)]
pub enum Stage {
    /// In the preamble, behind so many bytes of it, with the CR LF that is thought before the body.
    Preamble { passed: u64 },
    /// Behind a delimiter, where so many parts may still come.
    Head { left: u32 },
    /// In the content that begins at this place of the body, behind so many bytes of it, where so many further parts
    /// may come.
    Content { at: u64, passed: u64, left: u32 },
    /// Behind the close.
    Closed,
    /// The body has this fault.
    Refused(PartFault),
}

/// The stage that follows, how many bytes were used, and whether no further step can be taken before more bytes come.
#[derive(Clone, Copy)]
pub struct Step {
    pub stage: Stage,
    pub used: usize,
    pub stops: bool,
}

/// Tells bytes of a content, where there are some.
fn tell(alloc: Global, events: &mut PartEvents, bytes: &[u8]) -> Result<(), NoMemory>
    ensures { OnOk result (tokens_of events.new ≡ tokens_of events.old ++ content bytes.now) }
{
    if bytes.is_empty() {
        return Ok(());
    }
    let bytes = Octets::copy(alloc, bytes)?;
    events.push(PartEvent::Content(bytes))
}

/// A step in the preamble.
fn in_preamble(start: &[u8], total: u64, passed: u64, work: &[u8]) -> Step
    requires starts { slice_index start.now 0 ≡ 13 }
    requires some { 0 < length start.now }
    requires passed { passed ≤ 4098 }
    ensures used { result.used ≤ length work.now }
    ensures moves { result.stops ≡ false → 0 < result.used }
    ensures passable { Passable result.stage }
    ensures waits { result.stops ≡ true → Waits start.now result.stage (drop result.used work.now) }
    ensures leads { BodyRun start.now total (Stage.Preamble passed) work.now [] result.stage
        (drop result.used work.now) }
{
    let seen = first_mark(start, work);
    if seen.sure as u64 > MAX_BEFORE - passed {
        return Step {
            stage: Stage::Refused(PartFault::Bad { at: 0 }),
            used: work.len(),
            stops: true,
        };
    }
    match seen.mark {
        Mark::Delimiter(len) => Step {
            stage: Stage::Head { left: MAX_PARTS },
            used: seen.sure + len,
            stops: false,
        },
        Mark::Close(_) => Step {
            stage: Stage::Closed,
            used: work.len(),
            stops: true,
        },
        Mark::Absent => unreachable!(),
        Mark::Undecided => Step {
            stage: Stage::Preamble {
                passed: passed + seen.sure as u64,
            },
            used: seen.sure,
            stops: true,
        },
    }
}

/// A step in a content.
fn in_content(
    alloc: Global,
    start: &[u8],
    total: u64,
    at: u64,
    passed: u64,
    left: u32,
    work: &[u8],
    events: &mut PartEvents,
) -> Result<Step, NoMemory>
    requires starts { slice_index start.now 0 ≡ 13 }
    requires some { 0 < length start.now }
    requires passed { passed ≤ 16777216 }
    ensures used { IfOk result (λ step. step.used ≤ length work.now) }
    ensures moves { IfOk result (λ step. step.stops ≡ false → 0 < step.used) }
    ensures passable { IfOk result (λ step. Passable step.stage) }
    ensures waits { IfOk result
        (λ step. step.stops ≡ true → Waits start.now step.stage (drop step.used work.now)) }
    ensures leads { IfOk result (λ step. Steps start.now total (Stage.Content at passed left) work.now
        (tokens_of events.old) (tokens_of events.new) step) }
{
    let seen = first_mark(start, work);
    let room = MAX_PART - passed;
    if seen.sure as u64 > room {
        tell(alloc, events, &work[..room as usize])?;
        return Ok(Step {
            stage: Stage::Refused(PartFault::TooLong { limit: MAX_PART }),
            used: work.len(),
            stops: true,
        });
    }
    tell(alloc, events, &work[..seen.sure])?;
    match seen.mark {
        Mark::Delimiter(len) => {
            events.push(PartEvent::PartEnd)?;
            Ok(Step {
                stage: Stage::Head { left },
                used: seen.sure + len,
                stops: false,
            })
        }
        Mark::Close(_) => {
            events.push(PartEvent::PartEnd)?;
            Ok(Step {
                stage: Stage::Closed,
                used: work.len(),
                stops: true,
            })
        }
        Mark::Absent => unreachable!(),
        Mark::Undecided => Ok(Step {
            stage: Stage::Content {
                at,
                passed: passed + seen.sure as u64,
                left,
            },
            used: seen.sure,
            stops: true,
        }),
    }
}

/// The refusal of the element that begins with the last bytes of what has come.
fn bad(total: u64, left: usize) -> Step
    ensures { result ≡ refused_at total left }
{
    Step {
        stage: Stage::Refused(PartFault::Bad {
            at: total.saturating_sub(left as u64),
        }),
        used: left,
        stops: true,
    }
}

/// A step at the head of a part.
fn in_head(
    alloc: Global,
    total: u64,
    left: u32,
    work: &[u8],
    events: &mut PartEvents,
) -> Result<Step, NoMemory>
    ensures used { IfOk result (λ step. step.used ≤ length work.now) }
    ensures moves { IfOk result (λ step. step.stops ≡ false → 0 < step.used) }
    ensures passable { IfOk result (λ step. Passable step.stage) }
    ensures waits { IfOk result
        (λ step. (start : List ℕ) → step.stops ≡ true → Waits start step.stage (drop step.used work.now)) }
    ensures leads { IfOk result (λ step. (start : List ℕ) → Steps start total (Stage.Head left) work.now
        (tokens_of events.old) (tokens_of events.new) step) }
{
    if left == 0 {
        return Ok(Step {
            stage: Stage::Refused(PartFault::TooLong {
                limit: MAX_PARTS as u64,
            }),
            used: work.len(),
            stops: true,
        });
    }
    let mut headers = [EMPTY_HEADER_SPAN; MAX_FIELDS];
    let most = work.len().min(MAX_HEAD);
    let front = &work[..most];
    match section_in(front, &mut headers) {
        Section::Whole { len, count } => {
            let Some(name) = part_name(front, &headers[..count]) else {
                return Ok(bad(total, work.len()));
            };
            let name = Octets::copy(alloc, name)?;
            events.push(PartEvent::Name(name))?;
            Ok(Step {
                stage: Stage::Content {
                    at: total.saturating_sub((work.len() - len) as u64),
                    passed: 0,
                    left: left - 1,
                },
                used: len,
                stops: false,
            })
        }
        Section::Open => {
            if work.len() >= MAX_HEAD {
                return Ok(bad(total, work.len()));
            }
            Ok(Step {
                stage: Stage::Head { left },
                used: 0,
                stops: true,
            })
        }
        Section::Hopeless => Ok(bad(total, work.len())),
    }
}

/// A step at any stage.
fn one_step(
    alloc: Global,
    start: &[u8],
    total: u64,
    stage: Stage,
    work: &[u8],
    events: &mut PartEvents,
) -> Result<Step, NoMemory>
    requires starts { slice_index start.now 0 ≡ 13 }
    requires some { 0 < length start.now }
    requires passable { Passable stage }
    ensures used { IfOk result (λ step. step.used ≤ length work.now) }
    ensures moves { IfOk result (λ step. step.stops ≡ false → 0 < step.used) }
    ensures passable { IfOk result (λ step. Passable step.stage) }
    ensures waits { IfOk result
        (λ step. step.stops ≡ true → Waits start.now step.stage (drop step.used work.now)) }
    ensures leads { IfOk result (λ step. Steps start.now total stage work.now
        (tokens_of events.old) (tokens_of events.new) step) }
{
    match stage {
        Stage::Preamble { passed } => Ok(in_preamble(start, total, passed, work)),
        Stage::Head { left } => in_head(alloc, total, left, work, events),
        Stage::Content { at, passed, left } => {
            in_content(alloc, start, total, at, passed, left, work, events)
        }
        Stage::Closed => Ok(Step {
            stage,
            used: work.len(),
            stops: true,
        }),
        Stage::Refused(_) => Ok(Step {
            stage,
            used: work.len(),
            stops: true,
        }),
    }
}

/// All steps that the bytes allow.
pub fn run(
    alloc: Global,
    start: &[u8],
    total: u64,
    stage: Stage,
    work: &[u8],
    events: &mut PartEvents,
) -> Result<Step, NoMemory>
    requires starts { slice_index start.now 0 ≡ 13 }
    requires some { 0 < length start.now }
    requires passable { Passable stage }
    ensures used { IfOk result (λ step. step.used ≤ length work.now) }
    ensures passable { IfOk result (λ step. Passable step.stage) }
    ensures waits { IfOk result (λ step. Waits start.now step.stage (drop step.used work.now)) }
    ensures leads { IfOk result (λ step. Steps start.now total stage work.now
        (tokens_of events.old) (tokens_of events.new) step) }
{
    let mut now = stage;
    let mut at = 0;
    'steps: loop {
        let next = one_step(alloc, start, total, now, &work[at..], events)?;
        now = next.stage;
        at += next.used;
        if next.stops {
            return Ok(Step {
                stage: now,
                used: at,
                stops: true,
            });
        }
    }
}
