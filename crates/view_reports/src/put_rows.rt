//! What is told of calls and sets at the end of a trace.
ghost use Rattle.std.specs.Prelude.{◌≡◌, ◌++◌, OnOk};
ghost use Rattle.view_reports.specs.Told.{call_text, calls_text, set_text, sets_text};

use crate::call::Call;
use crate::call_text::{put_call_object, put_call_sentence};
use crate::handled::SetOf;
use crate::manner::Layout;
use crate::set_text::{put_set_object, put_set_sentence};
use crate::times::Times;
use indexmap::IndexMap;
use std::alloc::AllocError;

fn put_call(text: &mut Vec<u8>, layout: Layout, number: u32, call: &Call) -> Result<(), AllocError>
    ensures { OnOk result (text.new.items ≡ text.old.items ++ call_text layout number call.now) }
{
    match layout {
        Layout::Sentences => put_call_sentence(text, number, call),
        Layout::Objects => put_call_object(text, number, call),
    }
}

fn put_set(text: &mut Vec<u8>, layout: Layout, set: &SetOf, times: &Times) -> Result<(), AllocError>
    ensures { OnOk result (text.new.items ≡ text.old.items ++ set_text layout set.now times.now) }
{
    match layout {
        Layout::Sentences => put_set_sentence(text, set, times),
        Layout::Objects => put_set_object(text, set, times),
    }
}

/// Puts what is told of all calls, in order.
pub(crate) fn put_calls(
    text: &mut Vec<u8>,
    layout: Layout,
    rows: &IndexMap<u32, Call>,
) -> Result<(), AllocError>
    ensures { OnOk result (text.new.items ≡ text.old.items ++ calls_text layout rows.now.entries) }
{
    for (number, call) in rows {
        put_call(text, layout, *number, call)?;
    }
    Ok(())
}

/// Puts what is told of all sets, in order.
pub(crate) fn put_sets(
    text: &mut Vec<u8>,
    layout: Layout,
    rows: &IndexMap<SetOf, Times>,
) -> Result<(), AllocError>
    ensures { OnOk result (text.new.items ≡ text.old.items ++ sets_text layout rows.now.entries) }
{
    for (set, times) in rows {
        put_set(text, layout, set, times)?;
    }
    Ok(())
}
