//! Reads the parts of messages, octet by octet.

ghost use Rattle.std.specs.Prelude.{◌≡◌, ◌≤◌, ◌<◌, ◌+◌, ◌++◌, ◌∷◌, [], ◌^◌, ◌==◌, length, Ok, None};
ghost use Rattle.link_parts.specs.Rounds.{carried, next_frame, next_part, number_of, numbered, part_of_one};
ghost use Rattle.link_parts.specs.PartReading.{IsBegun, IsGoing, Says, kept_of, kind_octet};

use crate::fault::PartFault;
use crate::part::Part;
use link_frames::{End, Reader};

/// A part that has a number.
#[derive(Clone, Copy, Debug, PartialEq, Eq)]
enum Kind {
    Answers,
    Leaves,
    Rings,
    Takes,
    Carries,
}

/// What has come of a part: its first octet, those of its number, and those of a frame.
#[derive(Clone, Copy, Debug, PartialEq, Eq)]
enum PartStage {
    Nothing,
    One(Kind),
    Two(Kind, u8),
    Three(Kind, u8, u8),
    Four(Kind, u8, u8, u8),
    InFrame(u8, u8, u8, u8),
}

/// Reads parts.
#[derive(Drop)]
pub(crate) struct PartReader {
    stage: PartStage,
    reader: Reader,
}

/// The number of four octets.
fn number(a: u8, b: u8, c: u8, d: u8) -> u32
    ensures { result ≡ number_of 0 (a ∷ b ∷ c ∷ d ∷ []) }
{
    a as u32 * 16777216 + b as u32 * 65536 + c as u32 * 256 + d as u32
}

impl PartReader {
    /// Before a part.
    pub(crate) fn new() -> PartReader
        ensures kept { kept_of result ≡ [] }
        ensures going { IsGoing result }
    {
        PartReader {
            stage: PartStage::Nothing,
            reader: Reader::new(),
        }
    }

    /// Whether no octet of an unfinished part has come.
    pub(crate) fn is_between(&self) -> bool
        ensures { result ≡ (length (kept_of self.now) == 0) }
    {
        match self.stage {
            PartStage::Nothing => true,
            _ => false,
        }
    }

    /// Takes an octet: the part that it ends, if it ends one, or what is wrong with the octet.
    pub(crate) fn take(&mut self, end: End, octet: u8) -> Result<Option<Part>, PartFault>
        requires { IsGoing self.old }
        ensures { Says (next_part end (kept_of self.old) octet) (kept_of self.old) octet result self.new }
    {
        match self.stage {
            PartStage::Nothing => self.begin(end, octet),
            PartStage::One(kind) => self.goes_on(PartStage::Two(kind, octet)),
            PartStage::Two(kind, a) => self.goes_on(PartStage::Three(kind, a, octet)),
            PartStage::Three(kind, a, b) => self.goes_on(PartStage::Four(kind, a, b, octet)),
            PartStage::Four(kind, a, b, c) => self.numbered(kind, a, b, c, octet),
            PartStage::InFrame(a, b, c, d) => self.frame(a, b, c, d, octet),
        }
    }

    /// A part goes on.
    fn goes_on(&mut self, stage: PartStage) -> Result<Option<Part>, PartFault>
        ensures more { result ≡ Ok None }
        ensures new { self.new ≡ record self.old { stage = stage } }
    {
        self.stage = stage;
        Ok(None)
    }

    /// The first octet of a part.
    fn begin(&mut self, end: End, octet: u8) -> Result<Option<Part>, PartFault>
        ensures { Says (part_of_one end octet) [] octet result self.new }
    {
        let kind = match (end, octet) {
            (End::Point, 16) => {
                self.stage = PartStage::Nothing;
                return Ok(Some(Part::Dials));
            }
            (End::Vehicle, 17) => Kind::Answers,
            (End::Vehicle, 19) => Kind::Rings,
            (End::Point, 20) => Kind::Takes,
            (_, 18) => Kind::Leaves,
            (_, 32) => Kind::Carries,
            _ => return Err(PartFault::Unsent),
        };
        self.stage = PartStage::One(kind);
        Ok(None)
    }

    /// The last octet of a number.
    #[tactic(auto, using(crate::proofs::PartLemmas::first_begun))]
    fn numbered(
        &mut self,
        kind: Kind,
        a: u8,
        b: u8,
        c: u8,
        d: u8,
    ) -> Result<Option<Part>, PartFault>
        ensures { Says (numbered (kind_octet kind) (number_of 0 (a ∷ b ∷ c ∷ d ∷ [])))
            (kind_octet kind ∷ a ∷ b ∷ c ∷ []) d result self.new }
    {
        let call = number(a, b, c, d);
        if call == 0 {
            return Err(PartFault::Unnumbered);
        }
        let part = match kind {
            Kind::Answers => Part::Answers(call),
            Kind::Leaves => Part::Leaves(call),
            Kind::Rings => Part::Rings(call),
            Kind::Takes => Part::Takes(call),
            Kind::Carries => {
                self.stage = PartStage::InFrame(a, b, c, d);
                self.reader = Reader::new();
                return Ok(None);
            }
        };
        self.stage = PartStage::Nothing;
        Ok(Some(part))
    }

    /// An octet of a frame.
    fn frame(&mut self, a: u8, b: u8, c: u8, d: u8, octet: u8) -> Result<Option<Part>, PartFault>
        requires going { IsBegun self.old.reader }
        requires stage { self.old.stage ≡ PartStage.InFrame a b c d }
        ensures { Says (carried (number_of 0 (a ∷ b ∷ c ∷ d ∷ [])) (next_frame self.old.reader.kept octet))
            (32 ∷ a ∷ b ∷ c ∷ d ∷ self.old.reader.kept) octet result self.new }
    {
        match self.reader.feed(&[octet]) {
            Err(fault) => Err(PartFault::Frame(fault.fault)),
            Ok(_) => match self.reader.frame() {
                None => Ok(None),
                Some(frame) => {
                    let part = Part::Carries(number(a, b, c, d), frame.own());
                    self.stage = PartStage::Nothing;
                    Ok(Some(part))
                }
            },
        }
    }
}
