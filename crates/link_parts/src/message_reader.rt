//! Reads messages, octet by octet.

ghost use Rattle.std.specs.Prelude.{◌≡◌, ◌==◌, ◌&&◌, length};
ghost use Rattle.link_parts.specs.MessageReading.{IsBefore, TakesTo};
ghost use Rattle.link_parts.specs.Messages.{message_end, script_end};
ghost use Rattle.link_parts.specs.PartReading.{IsGoing, kept_of};
ghost use Rattle.link_parts.specs.Rounds.{may_end_script, take_octet};

use crate::fault::PartFault;
use crate::part::Part;
use crate::part_reader::PartReader;
use crate::writing::{MESSAGE_END, SCRIPT_END};
use link_frames::End;

/// What an octet makes of a message.
#[derive(Clone, Copy, Debug, PartialEq, Eq)]
pub enum Taking {
    /// A part goes on.
    GoesOn,
    /// A part is whole.
    Part(Part),
    /// The message is whole.
    Message,
    /// In place of a message, the vehicle's script is at its end.
    ScriptEnd,
}

/// Reads messages of the other end, part by part. It keeps no more than one part.
#[derive(Drop)]
pub struct MessageReader {
    reader: PartReader,
    /// Whether the message has no whole part yet.
    none: bool,
}

impl MessageReader {
    /// Before a message.
    pub fn new() -> MessageReader
        ensures { IsBefore result }
    {
        MessageReader {
            reader: PartReader::new(),
            none: true,
        }
    }

    /// Takes an octet that the other end sent to this one. After an error, and behind the end of a script, no further
    /// octet may be given.
    pub fn take(&mut self, end: End, octet: u8) -> Result<Taking, PartFault>
        requires { IsGoing self.old.reader }
        ensures { TakesTo (take_octet end self.old.none (kept_of self.old.reader) octet) self.old result self.new }
    {
        if self.is_end(octet) {
            self.none = true;
            return Ok(Taking::Message);
        }
        if self.is_script_end(end, octet) {
            return Ok(Taking::ScriptEnd);
        }
        match self.reader.take(end, octet) {
            Err(fault) => Err(fault),
            Ok(None) => Ok(Taking::GoesOn),
            Ok(Some(part)) => {
                self.none = false;
                Ok(Taking::Part(part))
            }
        }
    }

    /// Whether the octet ends the message.
    fn is_end(&self, octet: u8) -> bool
        ensures { result ≡ ((length (kept_of self.now.reader) == 0) && (octet == message_end)) }
    {
        self.reader.is_between() && octet == MESSAGE_END
    }

    /// Whether the octet stands in place of a message.
    fn is_script_end(&self, end: End, octet: u8) -> bool
        ensures { result ≡ ((may_end_script end self.now.none && (length (kept_of self.now.reader) == 0))
            && (octet == script_end)) }
    {
        match end {
            End::Vehicle => false,
            End::Point => self.none && self.reader.is_between() && octet == SCRIPT_END,
        }
    }
}
