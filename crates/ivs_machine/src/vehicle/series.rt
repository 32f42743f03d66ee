//! What the vehicle does in a dial series: each move of the series with its items. After EN 16072.
ghost use Rattle.std.specs.Prelude.{◌≡◌, ◌≤◌, []};

use super::moves::{ended, nothing};
use super::{Ivs, Phase};
use link_frames::{DialAttempt, Items, Note, put};
use redial::{Next, Redial, Turn};

impl Ivs {
    ghost use Rattle.std.specs.Prelude.{None, Some, ◌∷◌, ◌++◌, IsTrue, length};
    ghost use Rattle.link_frames.specs.Does.{Does};
    ghost use Rattle.link_frames.specs.declared.note.Note.TheVariants as note;
    ghost use Rattle.redial.specs.Series.{is_dialling, is_over, under_way};
    ghost use Rattle.redial.specs.SeriesRows as series;
    ghost use Rattle.ivs_machine.specs.VehicleRows as rows;
    ghost use Rattle.ivs_machine.specs.VehicleRows.{vehicle_row, acts, aged};
    ghost use Rattle.ivs_machine.specs.IvsStands.{IvsIs, IvsStandsFor};
    ghost use Rattle.ivs_machine.specs.inner.Moves.{begun, move_items, moved, told_items, told_by, turn_items, turned};
    ghost use Rattle.ivs_machine.specs.inner.Passing.{IvsMayPass};

    /// A dial series begins. Its items come behind those that stand in `items`.
    pub(super) fn begins(&mut self, items: &mut Items)
        requires { length items.old.items ≤ 4 }
        ensures items { items.new.items ≡ items.old.items ++ move_items None (series.begins self.old.network).next }
        ensures begun { self.new ≡ begun self.old }
    {
        let (redial, next) = Redial::begin(self.network);
        self.redial = redial;
        self.phase = Phase::InSeries;
        self.moves(None, next, items);
    }

    /// What follows in the series, behind an attempt that failed, if one was under way. Its items come behind those that
    /// stand in `items`.
    fn moves(&mut self, under_way: Option<DialAttempt>, next: Next, items: &mut Items)
        requires { length items.old.items ≤ 4 }
        ensures items { items.new.items ≡ items.old.items ++ move_items under_way next }
        ensures moved { self.new ≡ moved next self.old }
    {
        if let Some(attempt) = under_way {
            put(items, &Note::Failed(attempt));
        }
        match next {
            Next::Dial(attempt) => put(items, &Note::Dial(attempt)),
            Next::Pause => {}
            Next::Seek => put(items, &Note::Seeking),
            Next::GaveUp => {
                put(items, &Note::GaveUp);
                self.rests(items);
            }
        }
    }

    /// The series is told of the network.
    pub(super) fn tells(&mut self, up: bool, items: &mut Items)
        requires none { items.old.items ≡ [] }
        ensures items { items.new.items ≡
            note.Net up ∷ told_items (under_way self.old.redial) (series.told up self.old.redial).next }
        ensures told { self.new ≡ told_by (series.told up self.old.redial).next
            (record self.old { redial = (series.told up self.old.redial).new }) }
    {
        put(items, &Note::Net(up));
        let under_way = self.redial.under_way();
        match self.redial.net(up) {
            None => {}
            Some(next) => self.moves(under_way, next, items),
        }
    }

    /// An attempt to dial failed.
    pub(super) fn failed(&mut self, items: &mut Items)
        requires none { items.old.items ≡ [] }
        ensures { Does IvsStandsFor IvsIs self.old self.new items.new.items (λ v. vehicle_row v rows.Failed) }
    {
        match self.phase {
            Phase::InSeries if self.redial.dialling() => {
                let under_way = self.redial.under_way();
                let next = self.redial.failed();
                self.moves(under_way, next, items);
            }
            _ => nothing(items),
        }
    }

    /// Lets ticks of the series pass.
    pub(super) fn series_passes(&mut self, n: u32, items: &mut Items)
        requires none { items.old.items ≡ [] }
        requires phase { self.old.phase ≡ Phase.InSeries }
        ensures { Does (IvsMayPass n) IvsIs self.old self.new items.new.items (λ v. acts (aged n v)) }
    {
        if self.redial.over() {
            return;
        }
        let under_way = self.redial.under_way();
        let turn = self.redial.pass(n.min(self.redial.due()));
        self.turns(under_way, turn, items)
    }

    /// What a timer of the series leads to, if one is at its end.
    fn turns(&mut self, under_way: Option<DialAttempt>, turn: Option<Turn>, items: &mut Items)
        requires none { items.old.items ≡ [] }
        ensures items { items.new.items ≡ turn_items under_way turn }
        ensures turned { self.new ≡ turned turn self.old }
    {
        let Some(Turn { ended: timer, next }) = turn else {
            return;
        };
        match timer {
            Some(timer) => {
                ended(timer, items);
                self.moves(under_way, next, items);
            }
            None => self.moves(under_way, next, items),
        }
    }
}
