//! What holds of all replies, and of which commands. The function here does nothing: its contract is the laws.

ghost use Rattle.std.specs.Prelude.{◌≡◌, ℕ, true, false, List, [], ◌∷◌, Option, Some, None};
ghost use Rattle.std.specs.List.{AllByRecursion};
ghost use Rattle.command_base.specs.Refusals.{Reply};
ghost use Rattle.ecall_top.specs.Commands.{plays, reads, takes_memory, writes_once};
ghost use Rattle.ecall_top.specs.Completeness.{HasStatus};
ghost use Rattle.ecall_top.specs.Replies.{Replies};

use crate::command::Command;

/// The laws of the replies to a command, or to words that name none.
pub fn reply_laws()
    // Each input has a reply.
    ensures replied { (asked : Option Command) (input : List ℕ) → (reply : Reply) × Replies asked input reply }
    // It has no other.
    ensures one { (asked : Option Command) (input : List ℕ) (r s : Reply) →
        Replies asked input r → Replies asked input s → r ≡ s }
    // Its status is one of these.
    ensures statuses { (asked : Option Command) (input : List ℕ) (r : Reply) → Replies asked input r →
        HasStatus asked r.status }
    // These take no memory.
    ensures in_place { (number : ℕ) → AllByRecursion (λ asked. takes_memory asked ≡ false)
        (None ∷ Some Command.Decode ∷ Some Command.Encode ∷ Some Command.Frames ∷ Some Command.Conform
        ∷ Some (Command.Make number) ∷ []) }
    // These pass no ends.
    ensures unplayed { (number : ℕ) → AllByRecursion (λ asked. plays asked ≡ false)
        (None ∷ Some Command.Decode ∷ Some Command.Encode ∷ Some Command.Frames ∷ Some Command.Replay
        ∷ Some Command.Conform ∷ Some (Command.Make number) ∷ []) }
    // These write nothing before their end, but the refusal of a line.
    ensures once { (number : ℕ) → AllByRecursion (λ asked. writes_once asked ≡ true)
        (Some Command.Register ∷ Some Command.Replay ∷ Some (Command.Trial number) ∷ []) }
    // These read nothing.
    ensures unread { (number : ℕ) → AllByRecursion (λ asked. reads asked ≡ false)
        (None ∷ Some (Command.Make number) ∷ Some (Command.Trial number) ∷ Some Command.Conform ∷ []) }
{}
