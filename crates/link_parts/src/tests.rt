//! The parts of a live link's messages, worked out by hand.
use crate::{Part, part_of_item, write_part};
use link_frames::{Answer, End, Frame, Note, Request, Why};

#[test]
fn octets_of_parts(rt: HostRuntime) {
    let positive = Frame::App {
        request: Request::first(),
        answer: Answer::Positive,
    };
    for (part, octets) in [
        (Part::Dials, [0x10].as_slice()),
        (Part::Answers(1), [0x11, 0, 0, 0, 1].as_slice()),
        (Part::Leaves(258), [0x12, 0, 0, 1, 2].as_slice()),
        (Part::Rings(0x01020304), [0x13, 1, 2, 3, 4].as_slice()),
        (Part::Takes(u32::MAX), [0x14, 255, 255, 255, 255].as_slice()),
        (
            Part::Carries(1, Frame::Init),
            [0x20, 0, 0, 0, 1, 1].as_slice(),
        ),
        (
            Part::Carries(1, positive),
            [0x20, 0, 0, 0, 1, 6, 1, 1].as_slice(),
        ),
    ] {
        assert_eq!(rt; write_part(&part).as_slice(), octets);
    }
}

fn hangs_up() -> Note {
    Note::Down {
        end: End::Point,
        call: 1,
        why: Why::Hangup,
    }
}

#[test]
fn an_end_that_left_by_itself_says_so(rt: HostRuntime) {
    for (followed, item, part) in [
        (false, hangs_up(), Some(Part::Leaves(1))),
        (true, hangs_up(), None),
        (false, Note::Nothing, None),
    ] {
        assert_eq!(rt; part_of_item(followed, &item), part);
    }
}
