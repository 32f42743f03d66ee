//! The command `make`: a number in, the script that it makes out.

ghost use Rattle.std.specs.Prelude.{◌≡◌, ◌+◌, ◌%◌, ◌<◌, ◌≤◌, ◌∷◌, ◌++◌, decimal, length, OnErr, OnOk};
ghost use Rattle.arrayvec.specs.ArrayVec.{array_vec_len};
ghost use Rattle.call_io.specs.Bytes.{Grew, GrewPartly};
ghost use Rattle.call_io.specs.Counts.{Rose};
ghost use Rattle.call_io.specs.Ways.{Onward};
ghost use Rattle.line_input.specs.Characters.{space};
ghost use Rattle.script_commands.specs.Make.{behind_call, call_times, drawn, gives, made_script};
ghost use Rattle.command_base.specs.Outcome.{WriteCause};
ghost use Rattle.command_base.specs.Ends.{EndsWithText};
ghost use Rattle.script_commands.specs.inner.Made.{AppendsLine, text_of_call};

use arrayvec::ArrayVec;
use call_io::{Failed, Sink, write_all};
use command_base::Status;
use line_input::push_number;
use trace_model::{Delay, Positive};

/// How many calls a script has that is made.
pub(crate) const MADE_CALLS: u32 = 2000;

/// The lines of its facts.
const FACTS: &[u8] = b"vin WM9VDSVDSYA123456\nkind 1\nfuel 1000000\ntime 1577836800\n\
    place 173880000 41700000\nheading 45\ntrusted yes\n";

/// The times of a call that is made, in ticks.
#[derive(Clone, Copy)]
pub(crate) struct CallTimes {
    /// The delay of each frame towards the point.
    pub up: Delay,
    /// The delay of each frame towards the vehicle.
    pub down: Delay,
    /// From when the call comes up until a newer set is asked for.
    pub request: Positive,
    /// From then until the call is cleared.
    pub clear: Positive,
}

/// The generator that the times of the calls are drawn from.
#[derive(Drop)]
pub(crate) struct Draws {
    x: u32,
}

impl Draws {
    /// Before any draw.
    pub(crate) fn new(seed: u32) -> Draws
        ensures { result.x ≡ seed }
    {
        Draws { x: seed }
    }

    /// The times of the next call, by four draws.
    pub(crate) fn call(&mut self) -> CallTimes
        ensures x { self.new.x ≡ behind_call self.old.x }
        ensures times { result ≡ call_times self.old.x }
    {
        CallTimes {
            up: delay(self.next()),
            down: delay(self.next()),
            request: ticks(self.next()),
            clear: ticks(self.next()),
        }
    }

    /// One more draw.
    #[tactic(auto, unfolding(crate::specs::Make::drawn, crate::specs::Make::gives))]
    fn next(&mut self) -> u32
        ensures x { self.new.x ≡ drawn self.old.x }
        ensures gives { result ≡ gives (drawn self.old.x) }
    {
        self.x = self.x.wrapping_mul(1_664_525).wrapping_add(1_013_904_223);
        self.x / 65_536
    }
}

/// The delay of a flow, by a draw.
fn delay(draw: u32) -> Delay
    ensures { result ≡ draw % 40 }
{
    Delay::new(draw % 40).unwrap()
}

/// The ticks that a call goes on for, by a draw.
fn ticks(draw: u32) -> Positive
    ensures { result ≡ 20 + draw % 400 }
{
    Positive::new(20 + draw % 400).unwrap()
}

/// Writes the script that a number makes.
pub fn make_script<O: Sink>(seed: u32, output: &mut O) -> Status
    ensures ends { EndsWithText (O.held output.old) (O.held output.new) (made_script seed) Status.Done result }
    ensures unwritten { WriteCause result (O.faults output.old) (O.faults output.new) }
    ensures counted { O.faults output.old ≤ O.faults output.new }
    ensures onward { Onward (O.way output.old) (O.way output.new) }
{
    match write_script(seed, output) {
        Ok(()) => Status::Done,
        Err(_) => Status::WriteFault,
    }
}

/// Writes the lines of the facts, and those of each call.
fn write_script<O: Sink>(seed: u32, output: &mut O) -> Result<(), Failed>
    ensures ok { OnOk result (Grew (O.held output.old) (O.held output.new) (made_script seed)) }
    ensures partly { OnErr result (GrewPartly (O.held output.old) (O.held output.new) (made_script seed)) }
    ensures cause { OnErr result (Rose (O.faults output.old) (O.faults output.new)) }
    ensures stood { OnOk result (O.faults output.new ≡ O.faults output.old) }
    ensures counted { O.faults output.old ≤ O.faults output.new }
    ensures onward { Onward (O.way output.old) (O.way output.new) }
{
    write_all(output, FACTS)?;
    let mut draws = Draws::new(seed);
    for made in 0..MADE_CALLS {
        write_call(made + 1, &draws.call(), output)?;
    }
    Ok(())
}

/// Writes the lines of the call of a number.
fn write_call<O: Sink>(number: u32, times: &CallTimes, output: &mut O) -> Result<(), Failed>
    requires { 0 < number }
    ensures ok { OnOk result (Grew (O.held output.old) (O.held output.new) (text_of_call number times.now)) }
    ensures partly { OnErr result (GrewPartly (O.held output.old) (O.held output.new) (text_of_call number times.now)) }
    ensures cause { OnErr result (Rose (O.faults output.old) (O.faults output.new)) }
    ensures stood { OnOk result (O.faults output.new ≡ O.faults output.old) }
    ensures counted { O.faults output.old ≤ O.faults output.new }
    ensures onward { Onward (O.way output.old) (O.way output.new) }
{
    let lines = call_text(Positive::new(number).unwrap(), times);
    write_all(output, &lines)
}

/// Lines that are being built.
pub(crate) type LinesText = ArrayVec<u8, 256>;

/// The lines of the call of a number.
fn call_text(call: Positive, times: &CallTimes) -> LinesText
    ensures { result.items ≡ text_of_call call times.now }
{
    let mut lines = ArrayVec::new();
    push_delay_line(&mut lines, b"flow up", times.up);
    push_delay_line(&mut lines, b"flow down", times.down);
    push_line(&mut lines, b"trigger auto");
    push_line(&mut lines, b"answer");
    push_positive_line(&mut lines, b"tick", times.request);
    push_positive_line(&mut lines, b"request", call);
    push_positive_line(&mut lines, b"tick", times.clear);
    push_positive_line(&mut lines, b"clear", call);
    push_line(&mut lines, b"tick 40");
    push_positive_line(&mut lines, b"hangup", call);
    lines
}

/// Appends a line of words and a delay.
fn push_delay_line(lines: &mut LinesText, words: &[u8], delay: Delay)
    requires { array_vec_len lines.old + length words.now + 12 < 256 }
    ensures line { AppendsLine lines.old.items lines.new.items (words.now ++ space ∷ decimal delay) }
    ensures len { array_vec_len lines.new ≤ array_vec_len lines.old + length words.now + 12 }
{
    push_number_line(lines, words, delay.ticks());
}

/// Appends a line of words and a number from 1 on.
fn push_positive_line(lines: &mut LinesText, words: &[u8], number: Positive)
    requires { array_vec_len lines.old + length words.now + 12 < 256 }
    ensures line { AppendsLine lines.old.items lines.new.items (words.now ++ space ∷ decimal number) }
    ensures len { array_vec_len lines.new ≤ array_vec_len lines.old + length words.now + 12 }
{
    push_number_line(lines, words, number.number());
}

/// Appends a line of words and a number.
fn push_number_line(lines: &mut LinesText, words: &[u8], number: u32)
    requires { array_vec_len lines.old + length words.now + 12 < 256 }
    ensures line { AppendsLine lines.old.items lines.new.items (words.now ++ space ∷ decimal number) }
    ensures len { array_vec_len lines.new ≤ array_vec_len lines.old + length words.now + 12 }
{
    lines.try_extend_from_slice(words).unwrap();
    push_number(lines, number);
    lines.push(b'\n');
}

/// Appends a line of words.
fn push_line(lines: &mut LinesText, words: &[u8])
    requires { array_vec_len lines.old + length words.now < 256 }
    ensures line { AppendsLine lines.old.items lines.new.items words.now }
    ensures len { array_vec_len lines.new ≡ array_vec_len lines.old + length words.now + 1 }
{
    lines.try_extend_from_slice(words).unwrap();
    lines.push(b'\n');
}
