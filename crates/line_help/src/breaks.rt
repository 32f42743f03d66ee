//! The sentence on a line with which a trace breaks a rule.

use crate::entry_words::EntryWords;
use crate::legs::{Leg, Legs};
use crate::seen::Seen;
use crate::shown::Plain;
use std::fmt;
use trace_model::Rule;

/// What a person is told of the line with which a trace breaks a rule: the end, the call, and since when or by what, as
/// far as the lines in front of it are kept.
#[derive(Clone, Copy, Debug)]
pub struct BreakSentence<'a> {
    /// The number of the line, from 1.
    pub line: u32,
    pub rule: Rule,
    /// The end of what was read of the trace.
    pub seen: Seen<'a>,
}

impl fmt::Display for BreakSentence<'_> {
    fn fmt<W: fmt::Write>(&self, f: &mut fmt::Formatter<W>) -> fmt::Result {
        let line = self.line;
        let number = self.rule.number();
        write!(f, "line {line}: ")?;
        match (self.rule, self.story()) {
            (_, None) => write_unseen(f, self.rule)?,
            (Rule::Agreed, Some(story)) => write_agreed(f, &story)?,
            (Rule::Opened, Some(story)) => write_opened(f, &story)?,
            (Rule::Bounded, Some(story)) => write_bounded(f, &story)?,
        }
        write!(f, " (rule {number})")
    }
}

/// What the lines that are kept come to, up to the one that breaks a rule.
#[derive(Drop)]
struct Story<'a> {
    /// The line that breaks the rule.
    entry: EntryWords<'a>,
    /// The entry in front of it.
    before: Option<EntryWords<'a>>,
    /// The last entry that shows a set for the call and the request of the line.
    shown: Option<EntryWords<'a>>,
    legs: Legs<'a>,
    /// Whether all lines in front of it are kept.
    is_whole: bool,
}

impl<'a> BreakSentence<'a> {
    /// The line that breaks the rule; none where it isn't kept.
    fn entry(&self) -> Option<EntryWords<'a>> {
        let number = u64::from(self.line);
        EntryWords::of(number, self.seen.line(number)?)
    }

    /// What the lines that are kept come to.
    fn story(&self) -> Option<Story<'a>> {
        let entry = self.entry()?;
        let mut story = Story {
            entry,
            before: None,
            shown: None,
            legs: Legs::new(),
            is_whole: self.seen.ended == 0,
        };
        let mut number = self.seen.ended;
        for text in self.seen.text.split(|byte| *byte == b'\n') {
            number = number.saturating_add(1);
            if number >= entry.number {
                break;
            }
            story.hear(number, text);
        }
        Some(story)
    }
}

impl<'a> Story<'a> {
    /// Takes a line in front of the one that breaks the rule.
    fn hear(&mut self, number: u64, text: &'a [u8]) {
        if let Some(entry) = EntryWords::of(number, text) {
            self.legs.hear(&entry);
            if entry.is("shown")
                && entry.first == self.entry.first
                && entry.second == self.entry.second
            {
                self.shown = Some(entry);
            }
            self.before = Some(entry);
        }
    }
}

/// What a trace has where it breaks this rule.
fn write_unseen<W: fmt::Write>(f: &mut fmt::Formatter<W>, rule: Rule) -> fmt::Result {
    match rule {
        Rule::Agreed => write!(
            f,
            "a set is acknowledged that was not shown before, octet for octet, for this call and request"
        ),
        Rule::Opened => write!(
            f,
            "a muted voice isn't opened, right behind the end of a wait for data or a fault"
        ),
        Rule::Bounded => write!(
            f,
            "a voice is muted for more than 320 ticks at the vehicle or 275 at the point, \
            or within 20 ticks of its opening"
        ),
    }
}

/// Which set wasn't shown.
fn write_agreed<W: fmt::Write>(f: &mut fmt::Formatter<W>, story: &Story<'_>) -> fmt::Result {
    let call = Plain(story.entry.first);
    let request = Plain(story.entry.second);
    write!(
        f,
        "the set that is acknowledged in call {call} for request {request} "
    )?;
    match story.shown {
        Some(shown) => write_difference(f, shown, story.entry.third),
        None if story.is_whole => write!(f, "has no `shown` line in front"),
        None => write!(f, "was not shown before, octet for octet"),
    }
}

/// Where the octets that were shown last differ from those that are acknowledged.
fn write_difference<W: fmt::Write>(
    f: &mut fmt::Formatter<W>,
    shown: EntryWords<'_>,
    octets: &[u8],
) -> fmt::Result {
    let line = shown.number;
    let same = octets
        .iter()
        .zip(shown.third)
        .take_while(|pair| pair.0 == pair.1)
        .count();
    let octet = same / 2;
    write!(
        f,
        "isn't, octet for octet, one that was shown: that of line {line} differs in octet {octet}, from 0"
    )
}

/// Which voice has to open.
fn write_opened<W: fmt::Write>(f: &mut fmt::Formatter<W>, story: &Story<'_>) -> fmt::Result {
    let Some(before) = story.before else {
        return write_unseen(f, Rule::Opened);
    };
    let line = before.number;
    let item = Plain(before.item);
    let end = Plain(before.first);
    let call = Plain(before.second);
    let timer = Timer(&before);
    write!(
        f,
        "behind `{item} {end} {call}{timer}` of line {line} with the voice muted, the next line has to be \
        `voice {end} {call} open open`"
    )
}

/// Which voice is muted for too long, or too soon.
fn write_bounded<W: fmt::Write>(f: &mut fmt::Formatter<W>, story: &Story<'_>) -> fmt::Result {
    let tick = story.entry.tick;
    match (story.legs.over(tick), story.legs.of_entry(&story.entry)) {
        (Some(leg), _) => write_muted(f, &leg, tick),
        (None, Some(leg)) if leg.is_open && story.entry.is("voice") => write_soon(f, &leg, tick),
        _ => write_unseen(f, Rule::Bounded),
    }
}

/// For how long a voice is muted, and how long it may be.
fn write_muted<W: fmt::Write>(f: &mut fmt::Formatter<W>, leg: &Leg<'_>, tick: u64) -> fmt::Result {
    let end = Plain(leg.end);
    let call = Plain(leg.call);
    let since = leg.since;
    let line = leg.line;
    let ticks = tick.saturating_sub(since);
    let limit = leg.limit();
    write!(
        f,
        "the voice of the {end} in call {call} is muted since tick {since} (line {line}), {ticks} ticks, \
        where {limit} are the most"
    )
}

/// How soon behind its opening a voice is muted again.
fn write_soon<W: fmt::Write>(f: &mut fmt::Formatter<W>, leg: &Leg<'_>, tick: u64) -> fmt::Result {
    let end = Plain(leg.end);
    let call = Plain(leg.call);
    let line = leg.line;
    let ticks = tick.saturating_sub(leg.since);
    write!(
        f,
        "the voice of the {end} in call {call} is muted {ticks} ticks after it opened (line {line}), \
        where 20 are the least"
    )
}

/// The timer of an entry behind a space, where it has one.
#[derive(Clone, Copy)]
struct Timer<'a>(&'a EntryWords<'a>);

impl fmt::Display for Timer<'_> {
    fn fmt<W: fmt::Write>(&self, f: &mut fmt::Formatter<W>) -> fmt::Result {
        if self.0.is("ended") {
            let timer = Plain(self.0.third);
            write!(f, " {timer}")
        } else {
            Ok(())
        }
    }
}
