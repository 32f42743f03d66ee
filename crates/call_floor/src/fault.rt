//! Why a step of the floor failed.

ghost use Rattle.std.specs.Prelude.{◌≡◌};
ghost use Rattle.call_floor.specs.declared.fault.FloorFault.TheVariants as fault;
ghost use Rattle.call_floor.specs.FloorFault.{fault_as, fault_of};

use channel_sim::SimFault;
use std::alloc::AllocError;
use thiserror::Error;
use trace_model::Deaf;

/// Why a step of the floor failed.
#[derive(Clone, Copy, Debug, PartialEq, Eq, Error)]
pub enum FloorFault {
    /// The listener could not hand on an entry.
    #[error("write failed")]
    Write,
    /// There was no memory for the floor, or for the listener.
    #[error("no memory")]
    Memory,
}

impl From<AllocError> for FloorFault {
    ghost from_gives = { λ _ f. f ≡ fault.Memory };

    fn from(_e: AllocError) -> FloorFault {
        FloorFault::Memory
    }
}

impl From<SimFault> for FloorFault {
    ghost from_gives = { λ e f. f ≡ fault_as e };

    fn from(e: SimFault) -> FloorFault {
        match e {
            SimFault::Write => FloorFault::Write,
            SimFault::Memory => FloorFault::Memory,
        }
    }
}

impl From<Deaf> for FloorFault {
    ghost from_gives = { λ e f. f ≡ fault_of e };

    fn from(e: Deaf) -> FloorFault {
        match e {
            Deaf::Write => FloorFault::Write,
            Deaf::Memory => FloorFault::Memory,
        }
    }
}
