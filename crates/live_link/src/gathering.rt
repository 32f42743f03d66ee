//! What an end tells of its items, and gathers to send.

ghost use Rattle.std.specs.Prelude.{◌≡◌, ◌≤◌, ◌++◌, OnOk, OnErr, IfErr};
ghost use Rattle.std.specs.List.{flat_map};
ghost use Rattle.trace_model.specs.History.{told};
ghost use Rattle.link_parts.specs.Messages.{part_octets, part_of, parts_of};
ghost use Rattle.live_link.specs.EndFault.{EndFaultCause};

use crate::fault::EndFault;
use link_frames::Note;
use link_parts::{Part, part_of_item, write_part};
use std::alloc::{AllocError, Global};
use trace_model::Listener;

/// Tells a listener these items, each as an entry at this tick.
pub(crate) fn tell<H: Listener>(
    alloc: Global,
    tick: u64,
    items: &[Note],
    to: &mut H,
) -> Result<(), EndFault>
    ensures ok { OnOk result (H.grew to.old to.new (told tick items.now)) }
    ensures err { OnErr result (H.partly to.old to.new (told tick items.now)) }
    ensures stood { OnOk result (H.faults to.new ≡ H.faults to.old) }
    ensures cause { IfErr result (λ e. EndFaultCause e (H.faults to.old) (H.faults to.new)) }
    ensures counted { H.faults to.old ≤ H.faults to.new }
{
    trace_fit::tell(alloc, tick, items, to)?;
    Ok(())
}

/// Appends the octets of a part.
pub(crate) fn put_part(octets: &mut Vec<u8>, part: &Part) -> Result<(), AllocError>
    ensures { OnOk result (octets.new.items ≡ octets.old.items ++ part_octets part.now) }
{
    octets.extend_from_slice(write_part(part).as_slice())
}

/// Appends what an item gives to send.
#[tactic(auto, using(crate::proofs::GatherLemmas::one_part))]
fn gather(octets: &mut Vec<u8>, followed: bool, note: &Note) -> Result<(), AllocError>
    ensures { OnOk result (octets.new.items ≡ octets.old.items ++ flat_map part_octets (part_of followed note.now)) }
{
    match part_of_item(followed, note) {
        None => Ok(()),
        Some(part) => put_part(octets, &part),
    }
}

/// Appends what these items give to send.
#[tactic(auto, using(crate::proofs::GatherLemmas::one_more))]
pub(crate) fn gather_all(
    octets: &mut Vec<u8>,
    followed: bool,
    items: &[Note],
) -> Result<(), AllocError>
    ensures { OnOk result (octets.new.items ≡ octets.old.items ++ flat_map part_octets (parts_of followed items.now)) }
{
    for note in items {
        gather(octets, followed, note)?;
    }
    Ok(())
}
