//! What holds of all verdicts. The function here does nothing: its contract is the laws.

ghost use Rattle.std.specs.Prelude.{◌≡◌, ℕ, List};
ghost use Rattle.trace_audit.specs.Audit.{Audits};
ghost use Rattle.trace_audit.specs.declared.verdict.Verdict.{Verdict};

/// The lines of a trace have a verdict, and only one: they are sound, or one line is the first that is refused or that
/// breaks a rule.
#[tactic(auto, using(crate::proofs::AuditSome::some_verdict, crate::proofs::AuditOne::one_verdict))]
pub fn audit_laws()
    ensures some { (lines : List (List ℕ)) → (verdict : Verdict) × Audits lines verdict }
    ensures one { (lines : List (List ℕ)) (verdict other : Verdict) →
        Audits lines verdict → Audits lines other → verdict ≡ other }
{}
