//! Why a request isn't answered.
ghost use Rattle.std.specs.Prelude.{◌≡◌};

use answer_text::Refusal;
use blobref::NoMemory;

/// Why nothing that can be answered is asked.
#[derive(Drop)]
pub enum AskFault {
    /// The request is refused.
    Refused(Refusal),
    /// No memory was left.
    NoMemory,
}

impl From<NoMemory> for AskFault {
    ghost use Rattle.blob_routes.specs.declared.faults.AskFault.TheVariants.{NoMemory as OutOfMemory};

    ghost from_gives = { λ _ fault. fault ≡ OutOfMemory };

    fn from(_error: NoMemory) -> AskFault {
        AskFault::NoMemory
    }
}

impl From<Refusal> for AskFault {
    ghost use Rattle.blob_routes.specs.declared.faults.AskFault.TheVariants.{Refused};

    ghost from_gives = { λ refusal fault. fault ≡ Refused refusal };

    fn from(refusal: Refusal) -> AskFault {
        AskFault::Refused(refusal)
    }
}
