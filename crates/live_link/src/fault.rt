//! Why a step of an end failed.

ghost use Rattle.std.specs.Prelude.{◌≡◌};
ghost use Rattle.live_link.specs.EndFault.{fault_of};
ghost use Rattle.live_link.specs.declared.fault.EndFault.TheVariants as fault;

use std::alloc::AllocError;
use thiserror::Error;
use trace_model::Deaf;

/// Why a step of an end failed.
#[derive(Clone, Copy, Debug, PartialEq, Eq, Error)]
pub enum EndFault {
    /// The listener could not hand on an entry.
    #[error("write failed")]
    Write,
    /// There was no memory.
    #[error("no memory")]
    Memory,
}

impl From<AllocError> for EndFault {
    ghost from_gives = { λ _ f. f ≡ fault.Memory };

    fn from(_e: AllocError) -> EndFault {
        EndFault::Memory
    }
}

impl From<Deaf> for EndFault {
    ghost from_gives = { λ e f. f ≡ fault_of e };

    fn from(e: Deaf) -> EndFault {
        match e {
            Deaf::Write => EndFault::Write,
            Deaf::Memory => EndFault::Memory,
        }
    }
}
