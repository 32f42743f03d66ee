//! The summary of a set of data, which the line of a shown set ends with.
ghost use Rattle.std.specs.Prelude.{◌≡◌, ◌+◌, ◌<◌, ◌≤◌, ◌∷◌, [], ◌++◌, codes, decimal};
ghost use Rattle.std.specs.Fmt.{signed_decimal};
ghost use Rattle.arrayvec.specs.ArrayVec.{array_vec_len};
ghost use Rattle.trace_text.specs.EntryLine.{spaced};
ghost use Rattle.trace_text.specs.Summary.{ok_words, refused_words, summary_words};

use arrayvec::ArrayVec;
use line_input::{push_bytes, push_number, push_word};
use msd_codec::decode;
use msd_values::Msd;
use per_bits::Refusal;

/// The most octets that a summary has, with a space in front: `ok`, a message of 3 digits, an identification number of
/// 17 characters, a timestamp of 10 digits and two angles of 11 characters each. A refusal has fewer: `refused`, a
/// place of 10 digits, a reason of 3 and a value of 20.
pub const LONGEST_SUMMARY: usize = 60;

/// Appends the summary of the set that octets show, or of their refusal. They are decoded once, and not copied.
pub fn push_summary<const N: usize>(line: &mut ArrayVec<u8, N>, octets: &[u8])
    requires { array_vec_len line.old + LONGEST_SUMMARY ≤ N }
    ensures bytes { line.new.items ≡ line.old.items ++ spaced (summary_words octets.now) }
    ensures len { array_vec_len line.new ≤ array_vec_len line.old + LONGEST_SUMMARY }
{
    match decode(octets) {
        Ok(msd) => push_ok(line, &msd),
        Err(refusal) => push_refused(line, &refusal),
    }
}

/// Appends the summary of a set.
fn push_ok<const N: usize>(line: &mut ArrayVec<u8, N>, msd: &Msd<'_>)
    requires { array_vec_len line.old + LONGEST_SUMMARY ≤ N }
    ensures bytes { line.new.items ≡ line.old.items ++ spaced (ok_words msd.now) }
    ensures len { array_vec_len line.new ≤ array_vec_len line.old + LONGEST_SUMMARY }
{
    push_vehicle(line, msd);
    push_place(line, msd);
}

/// Appends the message of a set, and whose it is.
fn push_vehicle<const N: usize>(line: &mut ArrayVec<u8, N>, msd: &Msd<'_>)
    requires { array_vec_len line.old + LONGEST_SUMMARY ≤ N }
    ensures bytes { line.new.items
        ≡ line.old.items ++ spaced (codes "ok" ∷ decimal msd.now.message ∷ msd.now.vin ∷ []) }
    ensures len { array_vec_len line.new ≤ array_vec_len line.old + 25 }
{
    push_word(line, "ok");
    push_number(line, msd.message);
    push_bytes(line, msd.vin.text());
}

/// Appends when and where a set was made.
fn push_place<const N: usize>(line: &mut ArrayVec<u8, N>, msd: &Msd<'_>)
    requires { array_vec_len line.old + 35 ≤ N }
    ensures bytes { line.new.items
        ≡ line.old.items ++ spaced (decimal msd.now.time ∷ signed_decimal msd.now.latitude
        ∷ signed_decimal msd.now.longitude ∷ []) }
    ensures len { array_vec_len line.new ≤ array_vec_len line.old + 35 }
{
    push_number(line, msd.time);
    push_number(line, msd.latitude);
    push_number(line, msd.longitude);
}

/// Appends the summary of a refusal.
fn push_refused<const N: usize>(line: &mut ArrayVec<u8, N>, refusal: &Refusal)
    requires { array_vec_len line.old + LONGEST_SUMMARY ≤ N }
    ensures bytes { line.new.items ≡ line.old.items ++ spaced (refused_words refusal.now) }
    ensures len { array_vec_len line.new ≤ array_vec_len line.old + LONGEST_SUMMARY }
{
    push_word(line, "refused");
    push_number(line, refusal.place);
    push_number(line, refusal.reason.code());
    push_number(line, refusal.value);
}
