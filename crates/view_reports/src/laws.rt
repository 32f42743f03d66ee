//! What holds of all reports. The function here does nothing: its contract is the laws.
ghost use Rattle.std.specs.Prelude.{◌≡◌, ℕ, List, []};
ghost use Rattle.std.specs.Option.{is_some};
ghost use Rattle.trace_audit.specs.Audit.{Audits};
ghost use Rattle.view_lines.specs.Told.{AreTold, Told};
ghost use Rattle.view_reports.specs.First.{first_told, reported_verdict};
ghost use Rattle.view_reports.specs.Told.{IsReported};
ghost use Rattle.view_reports.specs.declared.manner.Manner.{Manner};

/// What a report on both ends tells first is the verdict of an audit: the first line that is refused or breaks a rule, with the
/// reason or the lowest rule; where it tells nothing so, the trace is sound. And it says that something is wrong exactly where it
/// tells something first.
#[tactic(auto, using(crate::proofs::FirstLemmas::first_verdict, crate::proofs::StatusLemmas::told_status))]
pub fn report_laws()
    ensures first { (lines : List (List ℕ)) → Audits lines (reported_verdict lines) }
    ensures status { (m : Manner) (lines : List (List ℕ)) (t : Told) → m.end ≡ None →
        AreTold (IsReported m) [] lines t → t.refused ≡ is_some (first_told lines) }
{}
