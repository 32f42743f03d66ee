//! The two ends of a live link.

ghost use Rattle.std.specs.Prelude.{◌≡◌, ◌≤◌};
ghost use Rattle.link_frames.specs.declared.frame.End.TheVariants as «end»;
ghost use Rattle.live_link.specs.LiveCauses.{IsAnswerOf, LiveReadCause, LiveWriteCause, WithLink, end_of};
ghost use Rattle.live_link.specs.LiveComplete.{Completes};
ghost use Rattle.live_link.specs.LiveOutcome.{LiveOutcome, ending_line, streams};
ghost use Rattle.live_link.specs.Scripts.{point_over, run_of, vehicle_over};

use crate::answer::{Link, Live, LiveStatus};
use crate::closing::close;
use crate::point_run::run_point;
use crate::vehicle_run::run_vehicle;
use call_io::{Block, Sink, Source};
use link_frames::Steps;
use std::alloc::Global;
use std::sync::ledger::Ledger;

/// Runs the vehicle's end over its script, and over the octets from the point.
pub fn live_vehicle<S: Source, O: Sink, I: Source, P: Sink, L: Ledger>(
    alloc: Global,
    script: &mut S,
    trace: &mut O,
    from: &mut I,
    to: &mut P,
    moments: &mut Steps<L>,
) -> LiveStatus
    ensures goes { LiveOutcome ending_line vehicle_over (streams (S.left script.old) (O.held trace.old) (I.left
        from.old) (P.held to.old) moments.old)
        (streams (S.left script.new) (O.held trace.new) (I.left from.new) (P.held to.new) moments.new) result }
    ensures complete { Completes vehicle_over (streams (S.left script.old) (O.held trace.old) (I.left from.old) (P.held
        to.old) moments.old)
        (streams (S.left script.new) (O.held trace.new) (I.left from.new) (P.held to.new) moments.new) result }
    ensures answers { IsAnswerOf «end».Vehicle result }
    ensures unread { LiveReadCause result (S.faults script.old) (S.faults script.new) (I.faults from.old) (I.faults
        from.new) }
    ensures unwritten { LiveWriteCause result (O.faults trace.old) (O.faults trace.new) (P.faults to.old) (P.faults to.new) }
    ensures script_counted { S.faults script.old ≤ S.faults script.new }
    ensures from_counted { I.faults from.old ≤ I.faults from.new }
    ensures trace_counted { O.faults trace.old ≤ O.faults trace.new }
    ensures to_counted { P.faults to.old ≤ P.faults to.new }
{
    let mut block = Block::over(trace);
    let status = run_vehicle(alloc, script, &mut block, from, to, moments);
    close(status, &mut block)
}

/// Runs the point's end over its script, and over the octets from the vehicle.
pub fn live_point<S: Source, O: Sink, I: Source, P: Sink, L: Ledger>(
    alloc: Global,
    script: &mut S,
    trace: &mut O,
    from: &mut I,
    to: &mut P,
    moments: &mut Steps<L>,
) -> LiveStatus
    ensures goes { LiveOutcome ending_line point_over (streams (S.left script.old) (O.held trace.old) (I.left from.old)
        (P.held to.old) moments.old)
        (streams (S.left script.new) (O.held trace.new) (I.left from.new) (P.held to.new) moments.new) result }
    ensures complete { Completes point_over (streams (S.left script.old) (O.held trace.old) (I.left from.old) (P.held
        to.old) moments.old)
        (streams (S.left script.new) (O.held trace.new) (I.left from.new) (P.held to.new) moments.new) result }
    ensures answers { IsAnswerOf «end».Point result }
    ensures unread { LiveReadCause result (S.faults script.old) (S.faults script.new) (I.faults from.old) (I.faults
        from.new) }
    ensures unwritten { LiveWriteCause result (O.faults trace.old) (O.faults trace.new) (P.faults to.old) (P.faults to.new) }
    ensures script_counted { S.faults script.old ≤ S.faults script.new }
    ensures from_counted { I.faults from.old ≤ I.faults from.new }
    ensures trace_counted { O.faults trace.old ≤ O.faults trace.new }
    ensures to_counted { P.faults to.old ≤ P.faults to.new }
{
    let mut block = Block::over(trace);
    let status = run_point(alloc, script, &mut block, from, to, moments);
    close(status, &mut block)
}

/// Runs an end over its link. Without a link it answers that, and reads and writes nothing.
pub fn live<S: Source, O: Sink, I: Source, P: Sink, L: Ledger>(
    alloc: Global,
    end: Live,
    script: &mut S,
    trace: &mut O,
    link: &mut Option<Link<I, P>>,
    moments: &mut Steps<L>,
) -> LiveStatus
    ensures answers { WithLink
        ((result ≡ LiveStatus.NoLink) × (script.new ≡ script.old) × (trace.new ≡ trace.old) × (moments.new ≡ moments.old))
        (λ _ _ _ _. IsAnswerOf (end_of end) result) link.old link.new }
    ensures goes { WithLink (result ≡ LiveStatus.NoLink)
        (λ from from' to to'. LiveOutcome ending_line (run_of (end_of end))
        (streams (S.left script.old) (O.held trace.old) (I.left from) (P.held to) moments.old)
        (streams (S.left script.new) (O.held trace.new) (I.left from') (P.held to') moments.new) result)
        link.old link.new }
    ensures complete { WithLink (result ≡ LiveStatus.NoLink)
        (λ from from' to to'. Completes (run_of (end_of end))
        (streams (S.left script.old) (O.held trace.old) (I.left from) (P.held to) moments.old)
        (streams (S.left script.new) (O.held trace.new) (I.left from') (P.held to') moments.new) result)
        link.old link.new }
    ensures unread { WithLink (S.faults script.new ≡ S.faults script.old)
        (λ from from' to to'. LiveReadCause result (S.faults script.old) (S.faults script.new) (I.faults from)
        (I.faults from'))
        link.old link.new }
    ensures unwritten { WithLink (O.faults trace.new ≡ O.faults trace.old)
        (λ from from' to to'. LiveWriteCause result (O.faults trace.old) (O.faults trace.new) (P.faults to) (P.faults to'))
        link.old link.new }
{
    match link {
        None => LiveStatus::NoLink,
        Some(both) => match end {
            Live::Vehicle(_) => live_vehicle(
                alloc,
                script,
                trace,
                &mut both.from,
                &mut both.to,
                moments,
            ),
            Live::Point(_) => live_point(
                alloc,
                script,
                trace,
                &mut both.from,
                &mut both.to,
                moments,
            ),
        },
    }
}
