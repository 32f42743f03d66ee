//! What a vehicle knows of itself, and the set that fits, for C.
ghost use Rattle.std.specs.Prelude.{◌≡◌, ◌≤◌, ◌<◌, ◌+◌, ◌++◌, ◌↔◌, ◌⊎◌, IsTrue, IsSome, IfSome, not, take, drop, length};
ghost use Rattle.arrayvec.specs.ArrayVec.{array_vec_len};
ghost use Rattle.per_bits.specs.Parts.{IsOid};
ghost use Rattle.msd_codec.specs.Trees.{tree};
ghost use Rattle.msd_codec.specs.Sets.{AreCanonical};
ghost use Rattle.msd_fit.specs.declared.facts.Facts.TheVariants as known;
ghost use Rattle.msd_fit.specs.Fitting.{AreFilled, fits, fitting, made};
ghost use Rattle.ecall_c.specs.Flat.{IsFormat, IsWay, IsKind, flat_way, format_of, count_of_flag};
ghost use Rattle.ecall_c.specs.Facts.{AreFacts, IsCause, IsOffered, cause_of, given, marks_known, own_of};

use crate::encode::{EcallEncoded, encoded, fault, passengers, way};
use crate::flat::EcallWay;
use arrayvec::ArrayVec;
use msd_fit::{Candidate, Cause, Facts, MOST_CANDIDATES, OwnFacts, make, spell};
use msd_values::{Format, Marks, RootKind, Vin};

/// Additional data that the vehicle offers: the octets of its object identifier, and behind them those of its content.
#[repr(C)]
#[derive(Clone, Copy, PartialEq, Eq)]
pub struct EcallExtra {
    pub octets: [u8; 110],
    pub oid_len: u8,
    pub content_len: u8,
    pub present: bool,
}

/// What a vehicle knows of itself.
#[repr(C)]
#[derive(Clone, Copy, PartialEq, Eq)]
pub struct EcallFacts {
    pub time: u32,
    pub latitude: i32,
    pub longitude: i32,
    pub before1: EcallWay,
    pub before2: EcallWay,
    pub vin: [u8; 17],
    /// 1 or 2.
    pub format: u8,
    /// 1 to 13.
    pub kind: u8,
    pub heading: u8,
    pub trusted: bool,
    pub gasoline: bool,
    pub diesel: bool,
    pub natural_gas: bool,
    pub propane: bool,
    pub electric: bool,
    pub hydrogen: bool,
    pub other: bool,
    pub has_passengers: bool,
    pub passengers: u8,
    /// Additional data, that which is wanted most first.
    pub extra1: EcallExtra,
    pub extra2: EcallExtra,
    pub extra3: EcallExtra,
    pub extra4: EcallExtra,
}

// The candidate with these octets.
fn candidate(extra: &EcallExtra) -> Option<Candidate>
    ensures some { IsSome result ↔ IsOffered extra.now }
    ensures value { IfSome result (λ c. c ≡ Rattle.ecall_c.specs.Facts.data_of extra.now) }
{
    let octets: &[u8] = &extra.octets;
    let oid = usize::from(extra.oid_len);
    let content = usize::from(extra.content_len);
    if oid + content > octets.len() {
        return None;
    }
    Candidate::of(&octets[..oid], &octets[oid..oid + content])
}

// Puts it behind the others, where it is offered. Answers whether it isn't, or is a candidate.
fn offer(extras: &mut ArrayVec<Candidate, MOST_CANDIDATES>, extra: &EcallExtra) -> bool
    requires { array_vec_len extras.old < MOST_CANDIDATES }
    ensures good { IsTrue result ↔ Rattle.ecall_c.specs.Facts.IsGood extra.now.present extra.now }
    ensures items { IsTrue result → extras.new.items ≡ extras.old.items ++ given extra.now.present extra.now }
    ensures few { array_vec_len extras.new ≤ array_vec_len extras.old + 1 }
{
    if !extra.present {
        return true;
    }
    match candidate(extra) {
        Some(candidate) => {
            extras.push(candidate);
            true
        }
        None => false,
    }
}

// The candidates, in their order.
fn extras(facts: &EcallFacts) -> Option<ArrayVec<Candidate, MOST_CANDIDATES>>
    ensures some { IsSome result ↔ Rattle.ecall_c.specs.Facts.AreExtras facts.now }
    ensures value { IfSome result (λ extras. extras.items ≡ Rattle.ecall_c.specs.Facts.extras_of facts.now) }
{
    let mut extras = ArrayVec::new();
    if !offer(&mut extras, &facts.extra1) {
        return None;
    }
    if !offer(&mut extras, &facts.extra2) {
        return None;
    }
    if !offer(&mut extras, &facts.extra3) {
        return None;
    }
    if !offer(&mut extras, &facts.extra4) {
        return None;
    }
    Some(extras)
}

fn marks(facts: &EcallFacts) -> Marks
    ensures { result ≡ marks_known facts.now }
{
    Marks {
        gasoline: facts.gasoline,
        diesel: facts.diesel,
        natural_gas: facts.natural_gas,
        propane: facts.propane,
        electric: facts.electric,
        hydrogen: facts.hydrogen,
        other: facts.other,
    }
}

fn format(number: u8) -> Option<Format>
    ensures some { IsSome result ↔ IsFormat number }
    ensures value { IfSome result (λ format. format ≡ format_of number) }
{
    match number {
        1 => Some(Format::One),
        2 => Some(Format::Two),
        _ => None,
    }
}

/// What the vehicle knows, where the struct says it.
pub fn own(facts: &EcallFacts) -> Option<OwnFacts>
    ensures some { IsSome result ↔ AreFacts facts.now }
    ensures value { IfSome result (λ own. own ≡ own_of facts.now) }
{
    let format = format(facts.format)?;
    let vin = Vin::read(&facts.vin).ok()?;
    let kind = RootKind::new(facts.kind)?;
    let before1 = way(&facts.before1)?;
    let before2 = way(&facts.before2)?;
    let extras = extras(facts)?;
    Some(OwnFacts {
        format,
        vin,
        kind,
        fuel: marks(facts),
        time: facts.time,
        latitude: facts.latitude,
        longitude: facts.longitude,
        heading: facts.heading,
        trusted: facts.trusted,
        before1,
        before2,
        passengers: passengers(facts.has_passengers, facts.passengers),
        extras,
    })
}

fn cause(number: u8) -> Option<Cause>
    ensures some { IsSome result ↔ IsCause number }
    ensures value { IfSome result (λ cause. cause ≡ cause_of number) }
{
    match number {
        0 => Some(Cause::Auto),
        1 => Some(Cause::Manual),
        2 => Some(Cause::Test),
        _ => None,
    }
}

/// The canonical octets of the set with these facts, this cause (0 automatic, 1 manual, 2 a test) and this message
/// number, with the first additional data with which it has at most 140 octets. Its fault is 0 or 2.
#[unsafe(no_mangle)]
pub extern "C" fn ecall_spell(facts: &EcallFacts, by: u8, number: u8) -> EcallEncoded
    ensures written { result.fault ≡ 0 → take result.len result.octets ≡ fits (own_of facts.now) (cause_of by) number }
    ensures canonical { result.fault ≡ 0 →
        AreCanonical (take result.len result.octets) (tree (fitting (own_of facts.now) (cause_of by) number)) }
    ensures good { result.fault ≡ 0 → AreFacts facts.now × IsCause by }
    ensures bad { result.fault ≡ 2 → AreFacts facts.now → IsCause by → ⊥ }
    ensures faults { (result.fault ≡ 0) ⊎ (result.fault ≡ 2) }
    ensures few { result.len ≤ 140 }
{
    let Some(own) = own(facts) else {
        return fault(2, 0);
    };
    let Some(cause) = cause(by) else {
        return fault(2, 0);
    };
    let octets = spell(&own, cause, number);
    encoded(octets.as_slice())
}

/// As `ecall_spell`, and octets 0 behind the set. Answers whether there are such facts and such a cause.
#[unsafe(no_mangle)]
pub extern "C" fn ecall_make(facts: &EcallFacts, by: u8, number: u8, set: &mut [u8; 140]) -> bool
    ensures good { IsTrue result ↔ (AreFacts facts.now × IsCause by) }
    ensures kept { IsTrue (not result) → set.new ≡ set.old }
    ensures set { IsTrue result → set.new ≡ made (known.Own (own_of facts.now)) (cause_of by) number }
    ensures canonical { IsTrue result → AreFilled set.new (tree (fitting (own_of facts.now) (cause_of by) number)) }
{
    let Some(own) = own(facts) else {
        return false;
    };
    let Some(cause) = cause(by) else {
        return false;
    };
    *set = make(&Facts::Own(own), cause, number);
    true
}
