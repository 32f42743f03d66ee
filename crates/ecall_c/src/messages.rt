//! The octets of live messages for C.
ghost use Rattle.std.specs.Prelude.{◌≡◌, ◌≤◌, ◌<◌, ◌↔◌, IsTrue, IsSome, IfSome, length, take};
ghost use Rattle.link_parts.specs.Messages.{part_octets};
ghost use Rattle.ecall_c.specs.Items.{IsFrame, frame_of};
ghost use Rattle.link_parts.specs.declared.part.Part.TheVariants as part_kind;
ghost use Rattle.ecall_c.specs.Parts.{IsPart};

use crate::frame::{EcallFrame, lift_frame};
use crate::frames::own_frame;
use link_parts::{Part, write_part};

/// A part of a message.
#[repr(C)]
#[derive(Clone, Copy, PartialEq, Eq)]
pub struct EcallMessagePart {
    /// The number of its call, 1 or more; of no meaning where the vehicle dials.
    pub call: u32,
    /// 0 the vehicle dials; 1 the point takes the call; 2 the end left it; 3 the point calls; 4 the vehicle takes the
    /// point's call; 5 a frame.
    pub kind: u8,
    pub frame: EcallFrame,
}

/// The octets of a part, `len` of them.
#[repr(C)]
#[derive(Clone, Copy, PartialEq, Eq)]
pub struct EcallPartOctets {
    pub is_part: bool,
    pub len: u8,
    pub octets: [u8; 149],
}

// A part that carries this frame.
fn carrying(call: u32, frame: &EcallFrame) -> Option<Part>
    ensures some { IsSome result ↔ IsFrame frame.now }
    ensures value { IfSome result (λ part. part ≡ part_kind.Carries call (frame_of frame.now)) }
{
    match lift_frame(frame) {
        Some(frame) => Some(Part::Carries(call, own_frame(&frame))),
        None => None,
    }
}

fn lift_part(part: &EcallMessagePart) -> Option<Part>
    ensures some { IsSome result ↔ IsPart part.now }
    ensures value { IfSome result (λ p. p ≡ Rattle.ecall_c.specs.Parts.part_of part.now) }
{
    if part.kind == 0 {
        return Some(Part::Dials);
    }
    if part.call == 0 {
        return None;
    }
    match part.kind {
        1 => Some(Part::Answers(part.call)),
        2 => Some(Part::Leaves(part.call)),
        3 => Some(Part::Rings(part.call)),
        4 => Some(Part::Takes(part.call)),
        5 => carrying(part.call, &part.frame),
        _ => None,
    }
}

fn copy(from: &[u8], into: &mut [u8; 149])
    requires { length from.now ≤ 149 }
    ensures { take (length from.now) into.new ≡ from.now }
{
    into[..from.len()].copy_from_slice(from);
}

/// The octets of a part, as they go over a live link.
#[unsafe(no_mangle)]
pub extern "C" fn ecall_part_write(part: &EcallMessagePart) -> EcallPartOctets
    ensures good { IsTrue result.is_part ↔ IsPart part.now }
    ensures octets { IsTrue result.is_part →
        take result.len result.octets ≡ part_octets (Rattle.ecall_c.specs.Parts.part_of part.now) }
    ensures few { result.len ≤ 149 }
{
    let mut octets = [0; 149];
    let Some(part) = lift_part(part) else {
        return EcallPartOctets {
            is_part: false,
            len: 0,
            octets,
        };
    };
    let written = write_part(&part);
    copy(written.as_slice(), &mut octets);
    EcallPartOctets {
        is_part: true,
        len: written.len() as u8,
        octets,
    }
}
