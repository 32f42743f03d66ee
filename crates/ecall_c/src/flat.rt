//! A set of data as one flat struct of C.
ghost use Rattle.std.specs.Prelude.{◌≡◌, length};
ghost use Rattle.per_bits.specs.Bits.{IsInPlace};
ghost use Rattle.ecall_c.specs.Flat.{flat_of, part_of, parts_of_additions, way_of};

use msd_values::{Delta, Extra, Msd, VehicleKind};
use per_bits::{Additions, Bits};

/// A part of the octets that a set was read from, in bits; no part where `present` is false.
#[repr(C)]
#[derive(Clone, Copy, PartialEq, Eq)]
pub struct EcallPart {
    pub start: u32,
    pub len: u32,
    pub present: bool,
}

/// The way from a recent location.
#[repr(C)]
#[derive(Clone, Copy, PartialEq, Eq)]
pub struct EcallWay {
    pub latitude: i16,
    pub longitude: i16,
    pub present: bool,
}

/// A set of data.
#[repr(C)]
#[derive(Clone, Copy, PartialEq, Eq)]
pub struct EcallSet {
    pub time: u32,
    pub latitude: i32,
    pub longitude: i32,
    pub fuel_more: EcallPart,
    pub set_more: EcallPart,
    pub oid: EcallPart,
    pub content: EcallPart,
    pub message_more: EcallPart,
    pub before1: EcallWay,
    pub before2: EcallWay,
    pub vin: [u8; 17],
    /// 1 or 2.
    pub format: u8,
    pub message: u8,
    pub heading: u8,
    pub kind: u8,
    pub kind_is_added: bool,
    pub automatic: bool,
    pub test: bool,
    pub trusted: bool,
    pub gasoline: bool,
    pub diesel: bool,
    pub natural_gas: bool,
    pub propane: bool,
    pub electric: bool,
    pub hydrogen: bool,
    pub other: bool,
    pub has_passengers: bool,
    pub passengers: u8,
}

/// Where, why and with which value octets stop being a set; reason 0 where they don't.
#[repr(C)]
#[derive(Clone, Copy, PartialEq, Eq)]
pub struct EcallRefusal {
    pub value: u64,
    pub place: u32,
    pub reason: u8,
}

/// A set, or a refusal with a reason other than 0.
#[repr(C)]
#[derive(Clone, Copy, PartialEq, Eq)]
pub struct EcallDecoded {
    pub refusal: EcallRefusal,
    pub set: EcallSet,
}

const NO_PART: EcallPart = EcallPart {
    start: 0,
    len: 0,
    present: false,
};

fn part(bits: &Bits<'_>) -> EcallPart
    ensures value { result ≡ part_of bits.now }
{
    EcallPart {
        start: bits.start(),
        len: bits.len(),
        present: true,
    }
}

fn section(additions: &Option<Additions<'_>>) -> EcallPart
    ensures { result ≡ parts_of_additions additions.now }
{
    match additions {
        Some(additions) => part(&additions.bits()),
        None => NO_PART,
    }
}

fn way(delta: &Option<Delta>) -> EcallWay
    ensures { result ≡ way_of delta.now }
{
    match delta {
        Some(delta) => EcallWay {
            latitude: delta.latitude(),
            longitude: delta.longitude(),
            present: true,
        },
        None => EcallWay {
            latitude: 0,
            longitude: 0,
            present: false,
        },
    }
}

fn kind(kind: VehicleKind) -> (u8, bool)
    ensures { result ≡ Rattle.ecall_c.specs.Flat.kind_of kind }
{
    match kind {
        VehicleKind::Root(kind) => (kind.number(), false),
        VehicleKind::Added(kind) => (kind.number(), true),
    }
}

fn vin(msd: &Msd<'_>) -> [u8; 17]
    ensures { result ≡ msd.now.vin }
{
    let mut characters = [0; 17];
    characters.copy_from_slice(msd.vin.text());
    characters
}

fn extra(extra: &Option<Extra<'_>>) -> (EcallPart, EcallPart)
    ensures { result ≡ Rattle.ecall_c.specs.Flat.extra_of extra.now }
{
    match extra {
        Some(extra) => (part(&extra.oid.octs().bits()), part(&extra.content.bits())),
        None => (NO_PART, NO_PART),
    }
}

/// The set as one flat struct.
pub fn flatten(msd: &Msd<'_>) -> EcallSet
    ensures { result ≡ flat_of msd.now }
{
    let (kind, kind_is_added) = kind(msd.kind);
    let (oid, content) = extra(&msd.extra);
    EcallSet {
        time: msd.time,
        latitude: msd.latitude,
        longitude: msd.longitude,
        fuel_more: section(&msd.fuel_more),
        set_more: section(&msd.set_more),
        oid,
        content,
        message_more: section(&msd.message_more),
        before1: way(&msd.before1),
        before2: way(&msd.before2),
        vin: vin(msd),
        format: msd.format.number(),
        message: msd.message,
        heading: msd.heading,
        kind,
        kind_is_added,
        automatic: msd.automatic,
        test: msd.test,
        trusted: msd.trusted,
        gasoline: msd.fuel.gasoline,
        diesel: msd.fuel.diesel,
        natural_gas: msd.fuel.natural_gas,
        propane: msd.fuel.propane,
        electric: msd.fuel.electric,
        hydrogen: msd.fuel.hydrogen,
        other: msd.fuel.other,
        has_passengers: msd.passengers.is_some(),
        passengers: msd.passengers.unwrap_or(0),
    }
}

/// What stands where no set does.
pub const NO_SET: EcallSet = EcallSet {
    time: 0,
    latitude: 0,
    longitude: 0,
    fuel_more: NO_PART,
    set_more: NO_PART,
    oid: NO_PART,
    content: NO_PART,
    message_more: NO_PART,
    before1: NO_WAY,
    before2: NO_WAY,
    vin: [0; 17],
    format: 0,
    message: 0,
    heading: 0,
    kind: 0,
    kind_is_added: false,
    automatic: false,
    test: false,
    trusted: false,
    gasoline: false,
    diesel: false,
    natural_gas: false,
    propane: false,
    electric: false,
    hydrogen: false,
    other: false,
    has_passengers: false,
    passengers: 0,
};

const NO_WAY: EcallWay = EcallWay {
    latitude: 0,
    longitude: 0,
    present: false,
};
