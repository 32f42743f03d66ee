//! The set of data of at most 140 octets.
ghost use Rattle.std.specs.Prelude.{◌≡◌, ◌+◌, ◌≤◌, nat_le, None, length};
ghost use Rattle.std.specs.List.{find};
ghost use Rattle.std.specs.Option.{option_map};
ghost use Rattle.per_bits.specs.Bits.{room_bits, room_octets};
ghost use Rattle.msd_values.specs.Format.{HasMarks};
ghost use Rattle.msd_codec.specs.Trees.{IsPlain, tree};
ghost use Rattle.msd_codec.specs.Sets.{AreCanonical};
ghost use Rattle.msd_fit.specs.declared.facts.OwnFacts.{OwnFacts};
ghost use Rattle.msd_fit.specs.declared.facts.Facts.TheVariants.{Own};
ghost use Rattle.msd_fit.specs.Candidates.{AdditionalData, most_together};
ghost use Rattle.msd_fit.specs.Fitting.{is_automatic, is_test, marks_of, extra_of, set_with, fitting, fits, filled, made, AreFilled};
ghost use Rattle.msd_fit.specs.inner.Lengths.{data_bits};

use crate::candidate::Candidate;
use crate::cause::Cause;
use crate::facts::{Facts, OwnFacts};
use crate::octets::{octs_of, put};
use arrayvec::ArrayVec;
use msd_codec::{encode, encoded_bits, extra_bits};
use msd_values::{Extra, Format, Marks, Msd, VehicleKind};
use per_bits::Oid;

/// How many octets a set of data has at most.
pub const MOST_OCTETS: usize = 140;

// How many bits a set has at most.
const MOST_BITS: u32 = 1120;

/// The set of data with these facts, this cause and this message number, and octets 0 behind it. Of a set that was
/// made elsewhere it is that set.
#[tactic(auto, unfolding(crate::specs::Fitting::made))]
pub fn make(facts: &Facts, cause: Cause, number: u8) -> [u8; MOST_OCTETS]
    ensures set { result ≡ made facts.now cause number }
    // Of own facts: the canonical octets of the set that fits, and octets 0 behind them.
    ensures canonical { (own : OwnFacts) → facts.now ≡ Own own → AreFilled result (tree (fitting own cause number)) }
    ensures size { length result ≡ room_octets }
{
    match facts {
        Facts::Own(own) => fill(spell(own, cause, number).as_slice()),
        Facts::Ready(octets) => copy(octets),
    }
}

/// The canonical octets of the set of data with these facts, this cause and this message number. Its additional data
/// is the first candidate with which it has at most 140 octets; without any it has fewer.
#[tactic(auto, unfolding(crate::specs::Fitting::fits))]
pub fn spell(facts: &OwnFacts, cause: Cause, number: u8) -> ArrayVec<u8, MOST_OCTETS>
    ensures set { result.items ≡ fits facts.now cause number }
    ensures canonical { AreCanonical result.items (tree (fitting facts.now cause number)) }
    ensures few { length result.items ≤ room_octets }
{
    let mut set = set_without_data(facts, cause, number);
    let room = MOST_BITS - encoded_bits(&set);
    set.extra = extra_with(first_within(facts.extras.as_slice(), room));
    encode(&set).unwrap()
}

// The first candidate that takes at most so many bits.
fn first_within(candidates: &[Candidate], room: u32) -> Option<&Candidate>
    ensures { option_map (λ candidate. candidate.now) result ≡ find (λ extra. nat_le (data_bits extra) room) candidates.now }
{
    candidates
        .iter()
        .find(|candidate| data_bits(candidate) <= room)
}

// The set of data with these facts, without additional data.
fn set_without_data<'a>(facts: &OwnFacts, cause: Cause, number: u8) -> Msd<'a>
    ensures tree { tree result ≡ tree (set_with facts.now cause number None) }
    ensures format { result.format ≡ facts.now.format }
    ensures plain { IsPlain result }
{
    Msd {
        format: facts.format,
        message: number,
        automatic: is_automatic(cause),
        test: is_test(cause),
        trusted: facts.trusted,
        kind: VehicleKind::Root(facts.kind),
        vin: facts.vin,
        fuel: marks_of(facts.format, facts.fuel),
        fuel_more: None,
        time: facts.time,
        latitude: facts.latitude,
        longitude: facts.longitude,
        heading: facts.heading,
        before1: facts.before1,
        before2: facts.before2,
        passengers: facts.passengers,
        set_more: None,
        extra: None,
        message_more: None,
    }
}

// The marks that a set of the format has.
fn marks_of(format: Format, fuel: Marks) -> Marks
    ensures marks { result ≡ marks_of format fuel }
    ensures other { HasMarks format result }
{
    match format {
        Format::One => Marks {
            other: false,
            ..fuel
        },
        Format::Two => fuel,
    }
}

fn is_automatic(cause: Cause) -> bool
    ensures { result ≡ is_automatic cause }
{
    match cause {
        Cause::Auto => true,
        Cause::Manual | Cause::Test => false,
    }
}

fn is_test(cause: Cause) -> bool
    ensures { result ≡ is_test cause }
{
    match cause {
        Cause::Auto | Cause::Manual => false,
        Cause::Test => true,
    }
}

// The candidate's octets, lent, if there is one.
fn extra_with(candidate: Option<&Candidate>) -> Option<Extra<'_>>
    ensures { result ≡ option_map extra_of (option_map (λ extra. extra.now) candidate.entry) }
{
    match candidate {
        Some(candidate) => Some(extra_of(candidate)),
        None => None,
    }
}

fn extra_of(candidate: &Candidate) -> Extra<'_>
    ensures { result ≡ extra_of candidate.now }
{
    Extra {
        oid: Oid::known(octs_of(candidate.oid())),
        content: octs_of(candidate.content()),
    }
}

// How many bits the candidate takes as additional data.
fn data_bits(candidate: &Candidate) -> u32
    ensures { result ≡ data_bits candidate.now }
{
    extra_bits(&extra_of(candidate))
}

// The octets, and octets 0 behind them.
fn fill(octets: &[u8]) -> [u8; MOST_OCTETS]
    requires { length octets.now ≤ room_octets }
    ensures { result ≡ filled octets.now }
{
    let mut all = [0; MOST_OCTETS];
    put(&mut all, 0, octets);
    all
}

// The same octets.
fn copy(octets: &[u8; MOST_OCTETS]) -> [u8; MOST_OCTETS]
    ensures same { result ≡ octets.now }
    ensures size { length result ≡ room_octets }
{
    let mut set = [0; MOST_OCTETS];
    set.copy_from_slice(octets);
    set
}
