//! Fields behind a text.
ghost use Rattle.std.specs.Prelude.{◌≡◌, ◌++◌, OnOk};
ghost use Rattle.view_reports.specs.Fields.{number_field};

use itoa::Buffer;
use std::alloc::AllocError;
use view_lines::put_all;

/// Puts a number behind a name, or what stands where there is none.
#[tactic(auto, unfolding(crate::specs::Fields::number_field))]
pub(crate) fn put_number(
    text: &mut Vec<u8>,
    name: &[u8],
    absent: &[u8],
    number: Option<u64>,
) -> Result<(), AllocError>
    ensures { OnOk result (text.new.items ≡ text.old.items ++ number_field name.now absent.now number) }
{
    match number {
        Some(number) => {
            let mut digits = Buffer::new();
            put_all(text, &[name, digits.format(number).as_bytes()])
        }
        None => put_all(text, &[name, absent]),
    }
}
