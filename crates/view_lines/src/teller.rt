//! Telling an input piece by piece.
ghost use Rattle.std.specs.Prelude.{◌≡◌, ◌++◌, ◌+◌, ◌<◌, ◌≤◌, ◌∷◌, [], List, ℕ, OnOk, IfErr, length, take};
ghost use Rattle.std.specs.List.{AllByRecursion};
ghost use Rattle.line_input.specs.Characters.{newline};
ghost use Rattle.line_input.specs.Feed.{IsInner};
ghost use Rattle.view_lines.specs.Outcome.{most_lines};
ghost use Rattle.view_lines.specs.Told.{IsInputTold};
ghost use Rattle.view_lines.specs.inner.Standing.{EndsInput, GoesOn, Stands, TellsLine};

use crate::line_teller::LineTeller;
use arrayvec::ArrayVec;
use memchr::memchr;
use std::alloc::Global;

/// One byte more than a line may have.
const MOST_KEPT: usize = 513;

/// Why telling stops.
#[derive(Clone, Copy, Debug, PartialEq, Eq)]
pub(crate) enum Stop {
    /// There was no memory.
    Memory,
    /// There are more lines than a number counts.
    TooLong,
}

/// Tells the lines of an input that comes in pieces. It keeps the first bytes of the line that isn't ended.
#[derive(Drop)]
pub(crate) struct Teller<T> {
    /// What tells each line.
    pub(crate) lines: T,
    /// What is told of the lines that ended since it was last handed on.
    pub(crate) text: Vec<u8>,
    /// The first bytes of the line that isn't ended.
    pub(crate) kept: ArrayVec<u8, MOST_KEPT>,
    /// How many lines ended.
    pub(crate) ended: u64,
    /// Whether anything in them is refused.
    pub(crate) refused: bool,
}

impl<T: LineTeller> Teller<T> {
    /// Before the first byte.
    pub(crate) fn new(alloc: Global, lines: T) -> Teller<T>
        ensures stands { T.heard lines [] → Stands T.tells T.heard [] [] result }
        ensures empty { result.text.items ≡ [] }
    {
        Teller {
            lines,
            text: Vec::new(alloc),
            kept: ArrayVec::new(),
            ended: 0,
            refused: false,
        }
    }

    /// Goes on with bytes that don't end the line.
    fn go_on(&mut self, run: &[u8])
        ensures { GoesOn self.old self.new run.now }
    {
        let room = MOST_KEPT - self.kept.len();
        let count = run.len().min(room);
        self.kept.try_extend_from_slice(&run[..count]).unwrap();
    }

    /// Tells the line that is kept.
    fn tell(&mut self) -> Result<(), Stop>
        ensures ok { OnOk result (TellsLine T.tells T.heard self.old self.new) }
        ensures most { IfErr result (λ e. e ≡ Stop.TooLong → self.old.ended ≡ most_lines) }
    {
        let Some(number) = self.ended.checked_add(1) else {
            return Err(Stop::TooLong);
        };
        match self
            .lines
            .put_line(&mut self.text, number, self.kept.as_slice())
        {
            Ok(refused) => self.refused |= refused,
            Err(_) => return Err(Stop::Memory),
        }
        self.ended = number;
        self.kept.clear();
        Ok(())
    }

    /// Takes the rest of a line.
    fn end_line(&mut self, rest: &[u8]) -> Result<(), Stop>
        requires { AllByRecursion IsInner rest.now }
        ensures ok { OnOk result ((front handed : List ℕ) → Stands T.tells T.heard front handed self.old →
            Stands T.tells T.heard (front ++ (rest.now ++ newline ∷ [])) handed self.new) }
        ensures most { IfErr result (λ e. e ≡ Stop.TooLong → self.old.ended ≡ most_lines) }
    {
        self.go_on(rest);
        self.tell()
    }

    /// Tells the last line where the input ended within it.
    fn end_last(&mut self) -> Result<(), Stop>
        ensures ok { OnOk result ((front handed : List ℕ) → Stands T.tells T.heard front handed self.old →
            EndsInput T.tells T.heard front handed self.new) }
        ensures most { IfErr result (λ e. e ≡ Stop.TooLong → self.old.ended ≡ most_lines) }
    {
        if self.kept.is_empty() {
            return Ok(());
        }
        self.tell()
    }

    /// Tells the last line where the input ended within it, and then the end.
    pub(crate) fn finish(&mut self) -> Result<(), Stop>
        ensures ok { OnOk result ((front handed : List ℕ) → Stands T.tells T.heard front handed self.old →
            IsInputTold T.tells T.ends front
            (record { text = handed ++ self.new.text.items; refused = self.new.refused })) }
        ensures most { IfErr result (λ e. e ≡ Stop.TooLong → (front handed : List ℕ) →
            Stands T.tells T.heard front handed self.old → most_lines ≤ length front) }
    {
        self.end_last()?;
        match self.lines.put_end(&mut self.text) {
            Ok(wrong) => {
                self.refused |= wrong;
                Ok(())
            }
            Err(_) => Err(Stop::Memory),
        }
    }

    /// Takes the next bytes of the input.
    pub(crate) fn take(&mut self, piece: &[u8]) -> Result<(), Stop>
        ensures ok { OnOk result ((front handed : List ℕ) → Stands T.tells T.heard front handed self.old →
            Stands T.tells T.heard (front ++ piece.now) handed self.new) }
        ensures most { IfErr result (λ e. e ≡ Stop.TooLong → (front handed : List ℕ) →
            Stands T.tells T.heard front handed self.old → most_lines ≤ length (front ++ piece.now)) }
    {
        let mut rest = piece;
        while let Some(at) = memchr(b'\n', rest) {
            self.end_line(&rest[..at])?;
            rest = &rest[at + 1..];
        }
        self.go_on(rest);
        Ok(())
    }
}
