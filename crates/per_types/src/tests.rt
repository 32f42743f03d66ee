//! Readings worked out by hand from the encoding rules, of what the programs don't show.
use crate::{read_additions, read_octets, read_oid, read_whole};
use per_bits::Reason::{BadOid, EmptyOpen, LongLength, NoAddition, OutOfRange, Short, SmallLarge};
use per_bits::{Bits, Cursor, Octs, Reason, Refusal};

// A cursor over the first bits of the octets, of which at most 200 are looked at.
fn front(octets: &[u8], len: u32) -> Cursor<'_> {
    let all = Bits::of(&octets[..octets.len().min(200)]);
    Cursor::of(all.part(0, len.min(all.len())))
}

fn no<T>(place: u32, reason: Reason, value: u64) -> Result<T, Refusal> {
    Err(Refusal {
        place,
        reason,
        value,
    })
}

/// The ranges of whole numbers: 0 to 12, -512 to 511, 5 alone, and all.
#[derive(Clone, Copy)]
enum Range {
    Dozen,
    Way,
    Five,
    All,
}

fn whole(range: Range, c: &mut Cursor<'_>) -> Result<i64, Refusal> {
    match range {
        Range::Dozen => read_whole(c, 0, 12, 4),
        Range::Way => read_whole(c, -512, 511, 10),
        Range::Five => read_whole(c, 5, 5, 0),
        Range::All => read_whole(c, i64::MIN, i64::MAX, 64),
    }
}

/// Octets and how many of their bits there are, the number that is read, and where the cursor then stands.
#[test]
fn whole_numbers(rt: HostRuntime) {
    let rows: [(Range, &[u8], u32, Result<i64, Refusal>, u32); 12] = [
        (Range::Dozen, &[0b0000_0000], 4, Ok(0), 4),
        (Range::Dozen, &[0b1100_0000], 4, Ok(12), 4),
        (Range::Dozen, &[0b1101_0000], 4, no(0, OutOfRange, 13), 0),
        (Range::Dozen, &[0b1111_0000], 3, no(0, Short, 4), 0),
        (Range::Way, &[0, 0], 10, Ok(-512), 10),
        (Range::Way, &[0x80, 0], 10, Ok(0), 10),
        (Range::Way, &[0xff, 0xff], 16, Ok(511), 10),
        (Range::Five, &[], 0, Ok(5), 0),
        (Range::All, &[0; 8], 64, Ok(i64::MIN), 64),
        (Range::All, &[0x80, 0, 0, 0, 0, 0, 0, 0], 64, Ok(0), 64),
        (Range::All, &[0xff; 8], 64, Ok(i64::MAX), 64),
        (Range::All, &[0xff; 8], 63, no(0, Short, 64), 0),
    ];
    for (range, octets, len, wanted, place) in rows {
        let mut c = front(octets, len);
        assert_eq!(rt;
            (whole(range, &mut c), c.place()),
            (wanted, place),
            "{octets:?}"
        );
    }
}

// Octets as a number, the last one lowest; and how many they are.
fn read_out(octs: &Octs<'_>) -> (u32, u64) {
    let mut number = 0;
    for k in 0..octs.count() {
        number = number << 8 | u64::from(octs.at(k));
    }
    (octs.count(), number)
}

// What is read as an object identifier, or else as an octet string.
fn string(is_oid: bool, c: &mut Cursor<'_>) -> Result<(u32, u64), Refusal> {
    if is_oid {
        Ok(read_out(&read_oid(c)?.octs()))
    } else {
        Ok(read_out(&read_octets(c)?))
    }
}

/// Octets and how many bits stand in front, how many octets are read and those of them, and where the cursor then stands.
#[test]
fn strings(rt: HostRuntime) {
    let mut long = [0x5a; 128];
    long[0] = 127;
    let rows: [(bool, &[u8], u32, Result<(u32, u64), Refusal>, u32); 19] = [
        (false, &[0], 0, Ok((0, 0)), 8),
        (false, &long, 0, Ok((127, 0x5a5a_5a5a_5a5a_5a5a)), 1024),
        // behind three bits: 00000001 01010101
        (false, &[0x00, 0x2a, 0xa0], 3, Ok((1, 0x55)), 19),
        (false, &[0x80], 0, no(0, LongLength, 128), 0),
        (false, &[0xff], 0, no(0, LongLength, 255), 0),
        (false, &[2, 1], 0, no(8, Short, 16), 8),
        (false, &[0], 1, no(1, Short, 8), 1),
        (true, &[1, 0x7f], 0, Ok((1, 0x7f)), 16),
        (true, &[1, 0x00], 0, Ok((1, 0)), 16),
        (true, &[2, 0x81, 0x05], 0, Ok((2, 0x8105)), 24),
        (true, &[3, 0x81, 0x05, 0x7f], 0, Ok((3, 0x81057f)), 32),
        (true, &[3, 0x81, 0x80, 0x00], 0, Ok((3, 0x818000)), 32),
        (true, &[2, 0x80, 0x01], 0, no(8, BadOid, 128), 8),
        (true, &[1, 0x85], 0, no(8, BadOid, 133), 8),
        (true, &[3, 0x05, 0x80, 0x01], 0, no(16, BadOid, 128), 8),
        (true, &[2, 0x05, 0xff], 0, no(16, BadOid, 255), 8),
        (true, &[0], 0, no(0, BadOid, 0), 0),
        (true, &[0x90], 0, no(0, LongLength, 144), 0),
        (true, &[2, 0x80], 0, no(8, Short, 16), 8),
    ];
    for (is_oid, octets, skipped, wanted, place) in rows {
        let mut c = front(octets, 1600);
        let _ = c.take(skipped);
        assert_eq!(rt;
            (string(is_oid, &mut c), c.place()),
            (wanted, place),
            "{octets:?}"
        );
    }
}

// How many additions a section behind skipped bits has, which are present, and the octets of all of them.
fn section(c: &mut Cursor<'_>) -> Result<(u8, u64, u64), Refusal> {
    let additions = read_additions(c)?;
    let mut present = 0;
    let mut sum = 0;
    for (i, octs) in additions.iter() {
        present ^= 1 << (i % 64);
        for k in 0..octs.count() {
            sum ^= u64::from(octs.at(k)) << (8 * (k % 8));
        }
    }
    Ok((additions.count(), present, sum))
}

/// Octets, how many bits stand in front, and how many bits there are; and then, where a section stands there, how many
/// additions it has, which are present, and the octets of all of them.
#[test]
fn sections(rt: HostRuntime) {
    // sixty-four additions, the last one present: 0111111, 63 zeros and 1, 00000001 01010101
    let last = [0x7e, 0, 0, 0, 0, 0, 0, 0, 0x02, 0x02, 0xaa];
    // of which the second one is present too: 00000001 10101011, and 00000010 11001101 11101111 of the last one
    let both = [
        0x7e, 0x80, 0, 0, 0, 0, 0, 0, 0x02, 0x03, 0x56, 0x05, 0x9b, 0xde,
    ];
    let rows: [(&[u8], u32, u32, Result<(u8, u64, u64), Refusal>, u32); 11] = [
        // one addition with the octets ab cd: 0000000 1, 00000010, ab, cd
        (&[0x01, 0x02, 0xab, 0xcd], 0, 32, Ok((1, 1, 0xcdab)), 32),
        // three additions, the second one present, behind three bits: 0000010 010 00000001 11110000
        (&[0x00, 0x90, 0x0f, 0x80], 3, 32, Ok((3, 2, 0xf0)), 29),
        (&last, 0, 88, Ok((64, 1 << 63, 0x55)), 87),
        (&both, 0, 112, Ok((64, 0x8000_0000_0000_0002, 0xef66)), 111),
        (&[0x80], 0, 8, no(0, SmallLarge, 64), 0),
        (&[0x04, 0x00], 0, 16, no(7, NoAddition, 3), 7),
        (&[0x04, 0x00], 0, 8, no(7, Short, 3), 7),
        (&[0x01, 0x00], 0, 16, no(8, EmptyOpen, 0), 8),
        (&[0x01, 0x80], 0, 16, no(8, LongLength, 128), 8),
        (&[0x01, 0x01], 0, 16, no(16, Short, 8), 16),
        (&[0x01], 0, 6, no(0, Short, 7), 0),
    ];
    for (octets, skipped, len, wanted, place) in rows {
        let mut c = front(octets, len);
        let _ = c.take(skipped);
        assert_eq!(rt; (section(&mut c), c.place()), (wanted, place), "{octets:?}");
    }
}
