//! The forms of lines: their words, each a word or a choice of words by `|`, or in `<>` what stands for a number of
//! a range, or for another text of a kind.

/// The facts that a vehicle knows of itself.
pub(crate) const FACTS: [&str; 12] = [
    "vin <vin>",
    "kind <1..13>",
    "format 1|2",
    "fuel <fuel>",
    "time <0..4294967295>",
    "place <-2147483648..2147483647> <-2147483648..2147483647>",
    "heading <0..255>",
    "trusted yes|no",
    "before1 <-512..511> <-512..511>",
    "before2 <-512..511> <-512..511>",
    "passengers <0..255>",
    "extra <oid> <content>",
];

/// A ready set, and what happens at one vehicle.
pub(crate) const VEHICLE: [&str; 11] = [
    "set <set>",
    "trigger auto|manual|test",
    "cancel",
    "net up|down",
    "answer",
    "fail",
    "callback",
    "sleep",
    "fault vehicle",
    "drop vehicle",
    "reset vehicle",
];

/// What happens in a call, on the way between the ends, and to time.
pub(crate) const SHARED: [&str; 10] = [
    "fault point <1..4294967295>",
    "drop point <1..4294967295>",
    "drop both <1..4294967295>",
    "damaged <1..4294967295>",
    "request <1..4294967295>",
    "clear <1..4294967295>",
    "hangup <1..4294967295>",
    "deliver up|down <1..4294967295> <1..4294967295>",
    "flow up|down <0..1000>",
    "tick <1..4294967295>",
];

/// What happens to the point.
pub(crate) const POINT: [&str; 1] = ["reset point"];

/// What a relay desk, or its link, is to do.
pub(crate) const DESK: [&str; 2] = ["pass <1..4294967295>", "hand forth|back <1..4294967295>"];

/// What asks for a set of the facts so far.
pub(crate) const WRITE: [&str; 1] = ["write auto|manual|test <0..255>"];

/// Octets alone.
pub(crate) const OCTETS: [&str; 1] = ["<hexadecimal>"];

/// The number of a vehicle on a floor.
pub(crate) const VEHICLE_NUMBER: &str = "<1..64>";

/// The lines of vehicles on a floor.
pub(crate) const NUMBERED: [&str; 1] = ["<1..64> <line>"];

/// The entries of a trace.
pub(crate) const ENTRIES: [&str; 18] = [
    "<0..18446744073709551615> dial|failed <1..10>",
    "<0..18446744073709551615> gaveup|seeking|arming|cancelled|standby|idle|nothing",
    "<0..18446744073709551615> net up|down",
    "<0..18446744073709551615> up vehicle|point <0..4294967295>",
    "<0..18446744073709551615> down vehicle|point <0..4294967295> release|hangup|lost",
    "<0..18446744073709551615> voice vehicle|point <0..4294967295> open|muted open|muted",
    "<0..18446744073709551615> send vehicle|point <0..4294967295> init",
    "<0..18446744073709551615> send vehicle|point <0..4294967295> start <1..255>",
    "<0..18446744073709551615> send vehicle|point <0..4294967295> data <1..255> <0..255> <octets>",
    "<0..18446744073709551615> send vehicle|point <0..4294967295> nack <1..255>",
    "<0..18446744073709551615> send vehicle|point <0..4294967295> ack <1..255>",
    "<0..18446744073709551615> send vehicle|point <0..4294967295> app <1..255> positive|clear",
    "<0..18446744073709551615> shown <0..4294967295> <1..255> <octets> <summary>",
    "<0..18446744073709551615> acked <0..4294967295> <1..255> <octets>",
    "<0..18446744073709551615> ended vehicle|point <0..4294967295> T1|T2|T3|T4|T5|T6|T7|T8|T10|TD|TW|sum",
    "<0..18446744073709551615> fault vehicle|point <0..4294967295>",
    "<0..18446744073709551615> busy|spent|unshown <0..4294967295>",
    "<0..18446744073709551615> restart vehicle|point",
];
