//! The objects of lines whose octets are no set.
ghost use Rattle.std.specs.Prelude.{◌≡◌, ◌++◌, OnOk};
ghost use Rattle.set_objects.specs.Bad.{set_reason_name, set_refusal_object};

use itoa::Buffer;
use per_bits::Refusal;
use std::alloc::AllocError;
use view_lines::put_all;

/// The name of why a set is refused.
fn set_reason_name(reason: per_bits::Reason) -> &'static [u8]
    ensures { result.now ≡ set_reason_name reason }
{
    match reason {
        per_bits::Reason::Short => b"Short",
        per_bits::Reason::OutOfRange => b"OutOfRange",
        per_bits::Reason::LongLength => b"LongLength",
        per_bits::Reason::SmallLarge => b"SmallLarge",
        per_bits::Reason::NoAddition => b"NoAddition",
        per_bits::Reason::EmptyOpen => b"EmptyOpen",
        per_bits::Reason::BadOid => b"BadOid",
        per_bits::Reason::Version => b"Version",
        per_bits::Reason::PadBits => b"PadBits",
        per_bits::Reason::Trailing => b"Trailing",
        per_bits::Reason::Size => b"Size",
    }
}

/// Puts the object of a line whose octets are no set.
pub(crate) fn put_set_refusal(
    text: &mut Vec<u8>,
    line: u64,
    refusal: &Refusal,
) -> Result<(), AllocError>
    ensures { OnOk result (text.new.items ≡ text.old.items ++ set_refusal_object line refusal.now) }
{
    let mut number = Buffer::new();
    let mut place = Buffer::new();
    let mut code = Buffer::new();
    let mut value = Buffer::new();
    put_all(
        text,
        &[
            b"{\"line\":",
            number.format(line).as_bytes(),
            b",\"refused\":{\"place\":",
            place.format(refusal.place).as_bytes(),
            b",\"reason\":",
            code.format(refusal.reason.code()).as_bytes(),
            b",\"name\":\"",
            set_reason_name(refusal.reason),
            b"\",\"value\":",
            value.format(refusal.value).as_bytes(),
            b"}}\n",
        ],
    )
}
