//! The object of a line that is refused.
ghost use Rattle.std.specs.Prelude.{◌≡◌, ◌++◌, OnOk};
ghost use Rattle.view_lines.specs.Refused.{line_reason_name, line_refusal_object};

use crate::pieces::put_all;
use itoa::Buffer;
use line_input::Reason;
use std::alloc::AllocError;

/// The name of why a line is refused.
fn line_reason_name(reason: Reason) -> &'static [u8]
    ensures { result.now ≡ line_reason_name reason }
{
    match reason {
        Reason::Word => b"Word",
        Reason::Number => b"Number",
        Reason::Count => b"Count",
        Reason::LineLong => b"LineLong",
        Reason::Text => b"Text",
        Reason::Hex => b"Hex",
        Reason::Missing => b"Missing",
        Reason::Late => b"Late",
        Reason::Many => b"Many",
    }
}

/// Puts the object of a line that is refused, by its number.
pub fn put_line_refusal(text: &mut Vec<u8>, line: u64, reason: Reason) -> Result<(), AllocError>
    ensures { OnOk result (text.new.items ≡ text.old.items ++ line_refusal_object line reason) }
{
    let mut number = Buffer::new();
    let mut code = Buffer::new();
    put_all(
        text,
        &[
            b"{\"line\":",
            number.format(line).as_bytes(),
            b",\"refused\":{\"place\":null,\"reason\":",
            code.format(reason.code()).as_bytes(),
            b",\"name\":\"",
            line_reason_name(reason),
            b"\",\"value\":null}}\n",
        ],
    )
}
