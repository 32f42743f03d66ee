//! Writing a set of data for C.
ghost use Rattle.std.specs.Prelude.{◌≡◌, ◌+◌, ◌*◌, ◌≤◌, ◌<◌, ◌↔◌, length, take, true, false, IsSome, IfSome, IfNone};
ghost use Rattle.msd_values.specs.Position.{Way};
ghost use Rattle.msd_values.specs.Format.{HasMarks};
ghost use Rattle.msd_fit.specs.Fitting.{marks_of, other_of};
ghost use Rattle.msd_codec.specs.Trees.{tree};
ghost use Rattle.msd_codec.specs.Sets.{AreCanonical, NeedsMoreBits};
ghost use Rattle.ecall_c.specs.Flat.{IsFlat, IsFormat, IsKind, IsWay, IsSection, IsOctets, IsExtra, LiesInOctets, msd_of, marks_in, format_of, bits_of, section_of, kind_of_flag, flat_way, extra_of_flag, count_of_flag};

use crate::flat::{EcallPart, EcallSet, EcallWay};
use msd_values::{AddedKind, Delta, Extra, Format, Marks, Msd, RootKind, VehicleKind, Vin};
use per_bits::{Additions, Bits, Octs, Oid};

/// The octets of a set, `len` of them; or a fault.
#[repr(C)]
#[derive(Clone, Copy, PartialEq, Eq)]
pub struct EcallEncoded {
    /// How many bits the spelling has, where the fault is 1.
    pub bits: u32,
    /// 0 for a set, 1 for one of more than 140 octets, 2 for a struct that is no set.
    pub fault: u8,
    pub len: u8,
    pub octets: [u8; 140],
}

// The part of the octets that stands at this place.
fn bits<'a>(octets: &'a [u8], part: &EcallPart) -> Option<Bits<'a>>
    requires { length octets.now ≤ 65535 }
    ensures some { IsSome result ↔ LiesInOctets octets.now part.now }
    ensures value { IfSome result (λ bits. bits ≡ bits_of octets.now part.now) }
{
    let whole = Bits::of(octets);
    let all = whole.len();
    if part.start > all || part.len > all - part.start {
        return None;
    }
    Some(whole.part(part.start, part.len))
}

fn section<'a>(octets: &'a [u8], part: &EcallPart) -> Option<Option<Additions<'a>>>
    requires { length octets.now ≤ 65535 }
    ensures some { IsSome result ↔ IsSection part.now.present octets.now part.now }
    ensures value { IfSome result (λ section. section ≡ section_of octets.now part.now) }
{
    if !part.present {
        return Some(None);
    }
    let additions = Additions::of(bits(octets, part)?)?;
    Some(Some(additions))
}

fn octs<'a>(octets: &'a [u8], part: &EcallPart) -> Option<Octs<'a>>
    requires { length octets.now ≤ 65535 }
    ensures some { IsSome result ↔ IsOctets octets.now part.now }
    ensures value { IfSome result (λ octs. octs ≡ bits_of octets.now part.now) }
{
    Octs::of(bits(octets, part)?)
}

fn extra<'a>(octets: &'a [u8], oid: &EcallPart, content: &EcallPart) -> Option<Option<Extra<'a>>>
    requires { length octets.now ≤ 65535 }
    ensures some { IsSome result ↔ IsExtra oid.now.present octets.now oid.now content.now }
    ensures value { IfSome result (λ extra. extra
        ≡ extra_of_flag oid.now.present (bits_of octets.now oid.now) (bits_of octets.now content.now)) }
{
    if !oid.present {
        return Some(None);
    }
    let oid = Oid::of(octs(octets, oid)?)?;
    let content = octs(octets, content)?;
    Some(Some(Extra { oid, content }))
}

fn kind(number: u8, is_added: bool) -> Option<VehicleKind>
    ensures some { IsSome result ↔ IsKind is_added number }
    ensures value { IfSome result (λ kind. kind ≡ kind_of_flag is_added number) }
{
    if is_added {
        Some(VehicleKind::Added(AddedKind::new(number)?))
    } else {
        Some(VehicleKind::Root(RootKind::new(number)?))
    }
}

pub fn way(way: &EcallWay) -> Option<Option<Delta>>
    ensures some { IsSome result ↔ IsWay way.now.present way.now }
    ensures value { IfSome result (λ delta. delta ≡ flat_way way.now) }
{
    if !way.present {
        return Some(None);
    }
    let delta = Delta::new(way.latitude, way.longitude)?;
    Some(Some(delta))
}

pub fn passengers(has_passengers: bool, passengers: u8) -> Option<u8>
    ensures { result ≡ count_of_flag has_passengers passengers }
{
    if has_passengers {
        Some(passengers)
    } else {
        None
    }
}

fn format(set: &EcallSet) -> Option<Format>
    ensures some { IsSome result ↔ (IsFormat set.now.format × HasMarks (format_of set.now.format) (marks_in set.now)) }
    ensures value { IfSome result (λ format. format ≡ format_of set.now.format) }
{
    match set.format {
        1 if !set.other => Some(Format::One),
        2 => Some(Format::Two),
        _ => None,
    }
}

fn has_other(format: Format, other: bool) -> bool
    ensures other { result ≡ other_of format other }
    ensures none { format ≡ Format.One → result ≡ false }
{
    match format {
        Format::One => false,
        Format::Two => other,
    }
}

fn marks(format: Format, set: &EcallSet) -> Marks
    ensures marks { result ≡ marks_of format (marks_in set.now) }
    ensures other { HasMarks format result }
{
    Marks {
        gasoline: set.gasoline,
        diesel: set.diesel,
        natural_gas: set.natural_gas,
        propane: set.propane,
        electric: set.electric,
        hydrogen: set.hydrogen,
        other: has_other(format, set.other),
    }
}

// The set that the struct is.
fn lift<'a>(set: &EcallSet, octets: &'a [u8]) -> Option<Msd<'a>>
    requires { length octets.now ≤ 65535 }
    ensures some { IsSome result ↔ IsFlat octets.now set.now }
    ensures value { IfSome result (λ msd. tree msd ≡ tree (msd_of octets.now set.now)) }
{
    let format = format(set)?;
    let vin = Vin::read(&set.vin).ok()?;
    let kind = kind(set.kind, set.kind_is_added)?;
    let before1 = way(&set.before1)?;
    let before2 = way(&set.before2)?;
    let fuel_more = section(octets, &set.fuel_more)?;
    let set_more = section(octets, &set.set_more)?;
    let message_more = section(octets, &set.message_more)?;
    let extra = extra(octets, &set.oid, &set.content)?;
    Some(Msd {
        format,
        message: set.message,
        automatic: set.automatic,
        test: set.test,
        trusted: set.trusted,
        kind,
        vin,
        fuel: marks(format, set),
        fuel_more,
        time: set.time,
        latitude: set.latitude,
        longitude: set.longitude,
        heading: set.heading,
        before1,
        before2,
        passengers: passengers(set.has_passengers, set.passengers),
        set_more,
        extra,
        message_more,
    })
}

// Copies the octets to the front.
fn copy(from: &[u8], into: &mut [u8; 140])
    requires { length from.now ≤ 140 }
    ensures { take (length from.now) into.new ≡ from.now }
{
    into[..from.len()].copy_from_slice(from);
}

// These octets.
pub fn encoded(written: &[u8]) -> EcallEncoded
    requires { length written.now ≤ 140 }
    ensures fault { result.fault ≡ 0 }
    ensures octets { take result.len result.octets ≡ written.now }
    ensures few { result.len ≤ 140 }
{
    let mut octets = [0; 140];
    copy(written, &mut octets);
    EcallEncoded {
        bits: 0,
        fault: 0,
        len: written.len() as u8,
        octets,
    }
}

pub fn fault(fault: u8, bits: u32) -> EcallEncoded
    ensures fault { result.fault ≡ fault }
    ensures bits { result.bits ≡ bits }
    ensures len { result.len ≡ 0 }
{
    EcallEncoded {
        bits,
        fault,
        len: 0,
        octets: [0; 140],
    }
}

/// The canonical octets of a set, whose parts stand in these octets.
#[unsafe(no_mangle)]
pub extern "C" fn ecall_encode(set: &EcallSet, octets: &[u8]) -> EcallEncoded
    ensures written { result.fault ≡ 0 →
        AreCanonical (take result.len result.octets) (tree (msd_of octets.now set.now)) }
    ensures long { result.fault ≡ 1 → NeedsMoreBits (tree (msd_of octets.now set.now)) result.bits }
    ensures bad { result.fault ≡ 2 → IsFlat octets.now set.now → ⊥ }
    ensures good { (result.fault ≡ 2 → ⊥) → IsFlat octets.now set.now }
    ensures faults { result.fault ≤ 2 }
    ensures few { result.len ≤ 140 }
{
    if octets.len() > 65535 {
        return fault(2, 0);
    }
    let Some(msd) = lift(set, octets) else {
        return fault(2, 0);
    };
    match msd_codec::encode(&msd) {
        Ok(written) => encoded(written.as_slice()),
        Err(long) => fault(1, long.bits),
    }
}
