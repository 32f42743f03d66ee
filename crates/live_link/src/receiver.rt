//! Reads the messages of the other end from the link.

ghost use Rattle.std.specs.Prelude.{◌≡◌, ℕ, ◌+◌, ◌≤◌, ◌++◌, ◌∷◌, [], List, Option, OnOk, IfOk, IfErr};
ghost use Rattle.line_input.specs.Lines.{most_bytes};
ghost use Rattle.link_parts.specs.PartReading.{IsGoing, kept_of};
ghost use Rattle.link_parts.specs.Rounds.{take_octet};
ghost use Rattle.link_parts.specs.declared.part.Part.{Part as PartOf};
ghost use Rattle.live_link.specs.inner.Going.{Answers, IsOfLink, IsOfOctet, MayGoOn, MayReceive, MayTake, Notes, Unread, halt_of};
ghost use Rattle.live_link.specs.inner.Receiving.{Hears, Receives, StandsBehind, StandsWithin, TakesOctet, TakesStep};

use crate::answer::LiveStatus;
use call_io::Source;
use line_input::{Bytes, LineFault};
use link_frames::End;
use link_parts::{LinkFault, MessageReader, Part, Taking};

/// What came in place of a message.
#[derive(Clone, Copy, Debug, PartialEq, Eq)]
pub(crate) enum Came {
    /// A message.
    Message,
    /// The octet that says that the vehicle's script is at its end.
    ScriptEnd,
}

/// Reads messages, and counts the octets that it was given.
#[derive(Drop)]
pub(crate) struct Receiver {
    octets: Bytes,
    reader: MessageReader,
    place: u32,
}

impl Receiver {
    /// Before anything was read.
    #[tactic(auto, using(crate::proofs::Received::nothing_taken))]
    pub(crate) fn new() -> Receiver
        ensures going { IsGoing result.reader.reader }
        ensures first { (start : Option (List ℕ)) → StandsBehind start start result [] }
    {
        Receiver {
            octets: Bytes::new(),
            reader: MessageReader::new(),
            place: 0,
        }
    }

    /// Reads one message, in place of the parts that stood in `parts`.
    #[tactic(auto, using(crate::proofs::Received::begins))]
    pub(crate) fn receive<I: Source>(
        &mut self,
        end: End,
        from: &mut I,
        parts: &mut Vec<Part>,
    ) -> Result<Came, LiveStatus>
        requires { IsGoing self.old.reader.reader }
        ensures going { IfOk result (λ came. MayReceive came end self.new) }
        ensures receives { (start : Option (List ℕ)) (octets : List ℕ) →
            StandsBehind start (I.left from.old) self.old octets →
            Receives end start (I.left from.new) self.new octets parts.new.items result }
        ensures answers { Answers IsOfLink result }
        ensures unread { Unread result (I.faults from.old) (I.faults from.new) }
        ensures counted { I.faults from.old ≤ I.faults from.new }
    {
        parts.clear();
        loop {
            match self.step(end, from, parts)? {
                None => {}
                Some(came) => return Ok(came),
            }
        }
    }

    /// Reads one octet; none is a message that goes on.
    #[tactic(auto, using(crate::proofs::GoingLemmas::notes_on, crate::proofs::GoingLemmas::notes_fail, crate::proofs::Received::notes_step))]
    fn step<I: Source>(
        &mut self,
        end: End,
        from: &mut I,
        parts: &mut Vec<Part>,
    ) -> Result<Option<Came>, LiveStatus>
        requires { IsGoing self.old.reader.reader }
        ensures going { IfOk result (λ came. MayGoOn came end self.new) }
        ensures takes { (start : Option (List ℕ)) (octets more : List ℕ) →
            StandsWithin end start (I.left from.old) self.old octets more parts.old.items →
            TakesStep end start (I.left from.new) self.new octets parts.new.items result }
        ensures given { OnOk result (self.new.octets.given ≡ self.old.octets.given + 1) }
        ensures limit { OnOk result (self.new.octets.given ≤ most_bytes) }
        ensures answers { Answers IsOfLink result }
        ensures unread { Unread result (I.faults from.old) (I.faults from.new) }
        ensures counted { I.faults from.old ≤ I.faults from.new }
    {
        match self.take(end, from) {
            Ok(taking) => note(parts, taking),
            Err(status) => Err(status),
        }
    }

    /// Reads one octet.
    fn take<I: Source>(&mut self, end: End, from: &mut I) -> Result<Taking, LiveStatus>
        requires { IsGoing self.old.reader.reader }
        ensures going { IfOk result (λ taking. MayTake taking end self.new) }
        ensures takes { (start : Option (List ℕ)) (octets more : List ℕ) (parts : List PartOf) →
            StandsWithin end start (I.left from.old) self.old octets more parts →
            TakesOctet end start (I.left from.new) self.new octets parts result }
        ensures given { OnOk result (self.new.octets.given ≡ self.old.octets.given + 1) }
        ensures limit { OnOk result (self.new.octets.given ≤ most_bytes) }
        ensures answers { Answers IsOfLink result }
        ensures unread { Unread result (I.faults from.old) (I.faults from.new) }
        ensures counted { I.faults from.old ≤ I.faults from.new }
    {
        match self.octets.next(from) {
            Err(fault) => Err(halted(fault)),
            Ok(None) => Err(LiveStatus::LinkCut),
            Ok(Some(octet)) => self.hear(end, octet),
        }
    }

    /// Takes an octet that was read.
    fn hear(&mut self, end: End, octet: u8) -> Result<Taking, LiveStatus>
        requires { IsGoing self.old.reader.reader }
        ensures going { IfOk result (λ taking. MayTake taking end self.new) }
        ensures hears { Hears (take_octet end self.old.reader.none (kept_of self.old.reader.reader) octet) octet
            self.old self.new result }
        ensures octets { self.new.octets ≡ self.old.octets }
        ensures answers { Answers IsOfOctet result }
    {
        match self.reader.take(end, octet) {
            Ok(taking) => {
                self.place = self.place.saturating_add(1);
                Ok(taking)
            }
            Err(fault) => Err(LiveStatus::LinkFault(LinkFault {
                place: self.place,
                fault,
                octet,
            })),
        }
    }
}

/// What an octet made of the message.
fn note(parts: &mut Vec<Part>, taking: Taking) -> Result<Option<Came>, LiveStatus>
    ensures { Notes taking parts.old.items parts.new.items result }
{
    match taking {
        Taking::GoesOn => Ok(None),
        Taking::Part(part) => {
            keep(parts, part)?;
            Ok(None)
        }
        Taking::Message => Ok(Some(Came::Message)),
        Taking::ScriptEnd => Ok(Some(Came::ScriptEnd)),
    }
}

/// Appends a part. The fields of one that carries a frame are named, since the checker asks in which modules the frame's
/// type stands.
fn keep(parts: &mut Vec<Part>, part: Part) -> Result<(), LiveStatus>
    ensures ok { OnOk result (parts.new.items ≡ parts.old.items ++ part ∷ []) }
    ensures err { IfErr result (λ how. how ≡ LiveStatus.Memory) }
{
    let part = match part {
        Part::Carries(call, frame) => Part::Carries(call, frame),
        other => other,
    };
    match parts.push(part) {
        Ok(()) => Ok(()),
        Err(_) => Err(LiveStatus::Memory),
    }
}

/// How a run ends where no line, or no octet, could be read.
pub(crate) fn halted(fault: LineFault) -> LiveStatus
    ensures { result ≡ halt_of fault }
{
    match fault {
        LineFault::Bad(bad) => LiveStatus::Refused(bad),
        LineFault::ReadFault => LiveStatus::ReadFault,
        LineFault::TooLong => LiveStatus::TooLong,
    }
}
