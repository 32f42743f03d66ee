//! The words of a trace's entries.

use crate::parts::part_at;
use line_input::{is_word, read_u64};

/// The first words of an entry. Where a word isn't there, it is empty.
#[derive(Clone, Copy)]
pub(crate) struct EntryWords<'a> {
    /// The number of the line, from 1.
    pub number: u64,
    pub tick: u64,
    pub item: &'a [u8],
    /// The words behind that of the item.
    pub first: &'a [u8],
    pub second: &'a [u8],
    pub third: &'a [u8],
    pub fourth: &'a [u8],
}

impl<'a> EntryWords<'a> {
    /// The words of this line; none where it begins with no tick.
    pub(crate) fn of(number: u64, line: &'a [u8]) -> Option<EntryWords<'a>> {
        let tick = read_u64(part_at(b' ', line, 0)?)?;
        Some(EntryWords {
            number,
            tick,
            item: word_or_none(line, 1),
            first: word_or_none(line, 2),
            second: word_or_none(line, 3),
            third: word_or_none(line, 4),
            fourth: word_or_none(line, 5),
        })
    }

    /// Whether its item begins with this word.
    pub(crate) fn is(&self, item: &str) -> bool {
        is_word(self.item, item)
    }

    /// Whether it turns a voice open both ways.
    pub(crate) fn opens(&self) -> bool {
        is_word(self.third, "open") && is_word(self.fourth, "open")
    }
}

/// The word of a place; no character where there is none.
fn word_or_none(line: &[u8], place: usize) -> &[u8] {
    part_at(b' ', line, place).unwrap_or(&[])
}
