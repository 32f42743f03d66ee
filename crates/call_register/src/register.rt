//! The register, as a listener of a trace.
ghost use Rattle.std.specs.Prelude.{◌≡◌, [], string_bytes, IfOk, OnOk, OnErr};
ghost use Rattle.link_frames.specs.declared.note.Note.TheVariants as note;
ghost use Rattle.call_register.specs.Table.{table};
ghost use Rattle.call_register.specs.Text.{table_text};
ghost use Rattle.call_register.specs.inner.Heard.{at_call, heard, with_call, with_ending, with_set};
ghost use Rattle.call_register.specs.inner.Tokens.{with_table};

use crate::record::{CallRecord, Ending, ShownSet};
use crate::text::write_record;
use call_io::Memory;
use indexmap::IndexMap;
use json::Writer;
use link_frames::{End, Note, Why};
use std::alloc::{AllocError, Global};
use std::marker::Model;
use trace_model::{Deaf, Entry, Listener};

/// Keeps each call that came up at the point, in the order in which the calls first did, with the sets that the point
/// showed in it and the end of the point's leg. After a refused growth it is as it was.
#[derive(Drop)]
pub struct Register {
    calls: IndexMap<u32, CallRecord>,
}

impl Model for Register {
    ghost use Rattle.call_register.specs.Rows.{Rows};

    ghost Value = { Rows };

    ghost view = { λ r. r.calls.entries };
}

impl Register {
    /// One that has heard nothing. It takes no memory yet.
    pub fn new(alloc: Global) -> Register
        ensures { result ≡ table [] }
    {
        Register {
            calls: IndexMap::new(alloc),
        }
    }

    /// A call comes up at the point.
    fn open(&mut self, alloc: Global, call: u32, tick: u64) -> Result<(), Memory>
        ensures ok { OnOk result (self.new ≡ with_call call tick self.old) }
        ensures err { OnErr result (self.new ≡ self.old) }
    {
        if self.calls.contains_key(&call) {
            return Ok(());
        }
        match self.calls.insert(call, CallRecord::new(alloc, tick)) {
            Ok(_) => Ok(()),
            Err(_) => Err(Memory),
        }
    }

    /// The point shows a set in a call.
    fn show(&mut self, call: u32, set: ShownSet) -> Result<(), Memory>
        ensures ok { OnOk result (self.new ≡ at_call call (with_set set) self.old) }
        ensures err { OnErr result (self.new ≡ self.old) }
    {
        let Some(kept) = self.calls.get_mut(&call) else {
            return Ok(());
        };
        kept.show(set)
    }

    /// The point's leg of a call goes down.
    fn close(&mut self, call: u32, ending: Ending)
        ensures { self.new ≡ at_call call (with_ending ending) self.old }
    {
        let Some(kept) = self.calls.get_mut(&call) else {
            return;
        };
        kept.end(ending);
    }

    /// The point takes a call, or the vehicle does.
    fn come_up(&mut self, alloc: Global, end: End, call: u32, tick: u64) -> Result<(), Memory>
        ensures ok { OnOk result (self.new ≡ heard self.old (record { tick = tick; note = note.Up end call })) }
        ensures err { OnErr result (self.new ≡ self.old) }
    {
        match end {
            End::Point => self.open(alloc, call, tick),
            End::Vehicle => Ok(()),
        }
    }

    /// The point's leg of a call goes down, or the vehicle's.
    fn go_down(&mut self, end: End, call: u32, tick: u64, why: Why)
        ensures { self.new ≡ heard self.old (record { tick = tick; note = note.Down end call why }) }
    {
        match end {
            End::Point => self.close(call, Ending { tick, why }),
            End::Vehicle => {}
        }
    }

    /// Takes in an item.
    fn take_in(&mut self, alloc: Global, tick: u64, item: &Note) -> Result<(), Memory>
        ensures ok { OnOk result (self.new ≡ heard self.old (record { tick = tick; note = item.now })) }
        ensures err { OnErr result (self.new ≡ self.old) }
    {
        match item {
            Note::Up { end, call } => self.come_up(alloc, *end, *call, tick),
            Note::Down { end, call, why } => {
                self.go_down(*end, *call, tick, *why);
                Ok(())
            }
            Note::Shown {
                call,
                request,
                octets,
            } => self.show(
                *call,
                ShownSet {
                    tick,
                    request: *request,
                    octets: *octets,
                },
            ),
            _ => Ok(()),
        }
    }

    /// Writes each call, in order.
    fn write(&self, out: &mut Writer) -> Result<(), AllocError>
        ensures tokens { OnOk result (out.new.tokens ≡ with_table out.old.tokens self.now) }
        ensures before { out.new.before ≡ out.old.before }
    {
        out.begin_array()?;
        for (call, kept) in &self.calls {
            write_record(out, *call, kept)?;
        }
        out.end_array()
    }

    /// The text, unless there is no memory.
    #[tactic(auto, using(crate::proofs::TextLemmas::table_is))]
    fn text(&self, alloc: Global) -> Result<String, AllocError>
        ensures { IfOk result (λ text. string_bytes text ≡ table_text self.now) }
    {
        let mut out = Writer::new(Vec::new(alloc));
        self.write(&mut out)?;
        match String::from_utf8(out.into_inner()) {
            Ok(text) => Ok(text),
            Err(_) => unreachable!(),
        }
    }

    /// The register as compact JSON: an array with one object for each call, in the order in which they came up.
    pub fn json(&self, alloc: Global) -> Result<String, Memory>
        ensures { IfOk result (λ text. string_bytes text ≡ table_text self.now) }
    {
        match self.text(alloc) {
            Ok(text) => Ok(text),
            Err(_) => Err(Memory),
        }
    }
}

impl Listener for Register {
    ghost use Rattle.std.specs.Prelude.{◌≡◌, [], ◌∷◌, OnOk, OnErr, IfErr};
    ghost use Rattle.trace_model.specs.Listener.{GrewByFront};
    ghost use Rattle.trace_model.specs.inner.ListenerLaws.{GrewByFront-whole, GrewByFront-after, GrewByFront-longer};
    ghost use Rattle.call_register.specs.Growth.{RegisterGrew};
    ghost use Rattle.call_register.specs.inner.Grown.{RegisterGrew-nothing, RegisterGrew-append};

    ghost grew = { RegisterGrew };

    ghost partly = { GrewByFront RegisterGrew };

    ghost faults = { λ _. 0 };

    fn hear(&mut self, alloc: Global, entry: &Entry) -> Result<(), Deaf>
        ensures ok { OnOk result (RegisterGrew self.old self.new (entry.now ∷ [])) }
        ensures err { OnErr result (self.new ≡ self.old) }
        ensures memory { IfErr result (λ e. e ≡ Deaf.Memory) }
    {
        match self.take_in(alloc, entry.tick, &entry.note) {
            Ok(()) => Ok(()),
            Err(_) => Err(Deaf::Memory),
        }
    }

    ghost unchanged = { RegisterGrew-nothing };

    ghost twice = { RegisterGrew-append };

    ghost whole = { GrewByFront-whole RegisterGrew };

    ghost then_partly = { GrewByFront-after RegisterGrew RegisterGrew-append };

    ghost longer = { GrewByFront-longer RegisterGrew };
}
