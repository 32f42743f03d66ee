//! What the words ask of a report.
ghost use Rattle.std.specs.Prelude.{◌≡◌, codes, if◌then◌else◌};
ghost use Rattle.std.specs.Option.{option_map};
ghost use Rattle.clap.specs.Words.{first_value, found_of, one_text};
ghost use Rattle.link_frames.specs.declared.frame.End.TheVariants as «end»;
ghost use Rattle.view_reports.specs.declared.manner.Layout.TheVariants as layout;

use crate::program::{END, JSON};
use clap::ArgMatches;
use link_frames::End;
use view_reports::{Layout, Manner};

/// How a report is laid out, with the flag for data or without it.
fn layout_of(is_json: bool) -> Layout
    ensures { result ≡ (if is_json then layout.Objects else layout.Sentences) }
{
    if is_json {
        Layout::Objects
    } else {
        Layout::Sentences
    }
}

/// The end that a word names, if there is one.
fn end_of(word: Option<&str>) -> Option<End>
    ensures vehicle { option_map (λ w. w.now) word.entry ≡ Some (codes "vehicle") → result ≡ Some «end».Vehicle }
    ensures point { option_map (λ w. w.now) word.entry ≡ Some (codes "point") → result ≡ Some «end».Point }
    ensures none { option_map (λ w. w.now) word.entry ≡ None → result ≡ None }
{
    match word {
        Some("vehicle") => Some(End::Vehicle),
        Some("point") => Some(End::Point),
        _ => None,
    }
}

/// What the words of the command ask of its report.
pub fn manner_of(words: &ArgMatches<'_>) -> Manner
    ensures json { one_text (found_of words.now) (codes "json") ≡ Some (codes "true") → result.layout ≡ layout.Objects }
    ensures text { one_text (found_of words.now) (codes "json") ≡ None → result.layout ≡ layout.Sentences }
    ensures vehicle { first_value (found_of words.now) (codes "end") ≡ Some (codes "vehicle") →
        result.end ≡ Some «end».Vehicle }
    ensures point { first_value (found_of words.now) (codes "end") ≡ Some (codes "point") →
        result.end ≡ Some «end».Point }
    ensures both { first_value (found_of words.now) (codes "end") ≡ None → result.end ≡ None }
{
    Manner {
        layout: layout_of(words.get_flag(JSON)),
        end: end_of(words.get_str(END)),
    }
}
