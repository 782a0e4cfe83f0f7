//! The steps of commands that gather facts. Each answers by the status that the run ends with.
ghost use Rattle.std.specs.Prelude.{◌≤◌, ◌<◌, ◌^◌, IfOk, IfErr};
ghost use Rattle.pack_disk.specs.Runs.{Stays};
ghost use Rattle.claim_model.specs.Facts.{AreValid};
ghost use Rattle.fact_lines.specs.Incoming.{GaveFacts};
ghost use Rattle.perkeep_top.specs.Search.{AreFacts};
ghost use Rattle.top_frame.specs.Steps.{RefusesInput, Finds, NeverRefuses};

use claim_index::FactList;
use edge_base::{ReadAllError, Source};
use fact_lines::{source_facts, store_facts};
use pack_disk::Disk;
use std::alloc::Global;
use top_frame::{InputFault, LIMITS, Status};

/// The facts of the blobs of the pack that the source has left, which has at most so many bytes.
pub(crate) fn read_facts<S: Source>(
    alloc: Global,
    source: &mut S,
    most: usize,
) -> Result<FactList, Status>
    requires { most < 2 ^ 63 }
    ensures read { IfOk result (GaveFacts most (S.left source.old) (S.left source.new)) }
    ensures valid { IfOk result (λ facts. AreValid facts) }
    ensures refused { IfErr result (RefusesInput S.Source most source.old source.new) }
    ensures later { S.faults source.old ≤ S.faults source.new }
{
    match source_facts(alloc, source, most) {
        Ok(facts) => Ok(facts),
        Err(ReadAllError::ReadFault) => Err(Status::ReadFault),
        Err(ReadAllError::TooLong) => Err(Status::BadInput(InputFault::TooBig {
            size: most as u64 + 1,
        })),
        Err(ReadAllError::NoMemory) => Err(Status::NoMemory),
    }
}

/// The facts of the blobs of the store that a disk holds, which are gathered as it is opened, with the disk. Nothing is
/// made and nothing added.
pub(crate) fn opened_facts<D: Disk>(alloc: Global, disk: D) -> Result<(D, FactList), (D, Status)>
    ensures facts { IfOk result (λ o. AreFacts (D.packs disk) o.1) }
    ensures valid { IfOk result (λ o. AreValid o.1) }
    ensures stays { IfOk result (λ o. Stays D.Disk disk o.0) }
    ensures later { IfOk result (λ o. D.faults disk ≤ D.faults o.0) }
    ensures stays_err { IfErr result (λ e. Stays D.Disk disk e.0) }
    ensures later_err { IfErr result (λ e. D.faults disk ≤ D.faults e.0) }
    ensures refused { IfErr result (λ e. Finds D.Disk disk e.0 NeverRefuses e.1) }
{
    match store_facts(alloc, disk, LIMITS) {
        Ok(opened) => {
            let (store, facts) = opened;
            Ok((store.give_back(), facts))
        }
        Err((disk, fault)) => Err((disk, Status::from(fault))),
    }
}
