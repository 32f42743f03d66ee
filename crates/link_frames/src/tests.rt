//! What no clause says of a count of steps: that it takes no bytes.
ghost use Rattle.std.specs.Prelude.{◌≡◌, ◌<◌};

use crate::Steps;
use std::marker::Brand;
use std::process::Abort;
use std::sync::ledger::{Blank, Ledger};

fn takes_two_steps<L: Ledger>(rt: &impl Abort, blank: Blank)
    requires name { blank.name ≡ L.name }
    requires parts { blank.parts ≡ L.parts }
    requires some { 0 < blank.parts }
{
    let mut steps = Steps::<L>::start(blank);
    steps.tick();
    steps.tick();
    assert_eq!(rt; size_of::<Steps<L>>(), 0);
}

#[test]
fn steps_take_no_bytes(rt: HostRuntime) {
    takes_two_steps::<Brand>(&rt, Blank::new(1));
}
