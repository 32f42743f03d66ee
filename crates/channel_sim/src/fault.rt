//! Why a step of the world failed.

ghost use Rattle.std.specs.Prelude.{◌≡◌};
ghost use Rattle.channel_sim.specs.declared.fault.SimFault.TheVariants as fault;
ghost use Rattle.channel_sim.specs.SimFault.{fault_of};

use std::alloc::AllocError;
use thiserror::Error;
use trace_model::Deaf;

/// Why a step of the world failed.
#[derive(Clone, Copy, Debug, PartialEq, Eq, Error)]
pub enum SimFault {
    /// The listener could not hand on an entry.
    #[error("write failed")]
    Write,
    /// There was no memory for the world, or for the listener.
    #[error("no memory")]
    Memory,
}

impl From<AllocError> for SimFault {
    ghost from_gives = { λ _ f. f ≡ fault.Memory };

    fn from(_e: AllocError) -> SimFault {
        SimFault::Memory
    }
}

impl From<Deaf> for SimFault {
    ghost from_gives = { λ e f. f ≡ fault_of e };

    fn from(e: Deaf) -> SimFault {
        match e {
            Deaf::Write => SimFault::Write,
            Deaf::Memory => SimFault::Memory,
        }
    }
}
