//! What is told of lines.
ghost use Rattle.std.specs.Prelude.{◌≡◌, ◌+◌, ◌∷◌, ◌++◌, [], ℕ, List, IfOk, length, take};
ghost use Rattle.view_lines.specs.Fault.{most_kept};
ghost use Rattle.view_lines.specs.Told.{Puts, Told};

use std::alloc::AllocError;

/// Tells lines one by one, and at last what there is to say behind them. After an error it isn't used again.
pub trait LineTeller {
    // What is told of a line behind these lines.
    ghost tells: { (before : List (List ℕ)) → List ℕ → Told → Type 0 };

    // What is told at the end behind these lines.
    ghost ends: { List (List ℕ) → Told → Type 0 };

    // It has heard these lines.
    ghost heard: { Self → List (List ℕ) → Type 0 };

    /// Puts what is told of one more line behind a text. True is for a line in which something is refused. Of a line
    /// with more than 512 bytes the first 513 are given.
    fn put_line(&mut self, text: &mut Vec<u8>, number: u64, line: &[u8]) -> Result<bool, AllocError>
        ensures { (before : List (List ℕ)) (whole : List ℕ) → heard self.old before → number ≡ length before + 1 →
            line.now ≡ take most_kept whole → IfOk result
            (λ refused. Puts (tells before whole) text.old.items text.new.items refused
            × heard self.new (before ++ whole ∷ [])) };

    /// Puts what is told at the end. True is for an end at which something is refused.
    fn put_end(&mut self, text: &mut Vec<u8>) -> Result<bool, AllocError>
        ensures { (lines : List (List ℕ)) → heard self.old lines → IfOk result
            (λ refused. Puts (ends lines) text.old.items text.new.items refused) };
}
