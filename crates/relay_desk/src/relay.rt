//! The relay desk.

ghost use Rattle.std.specs.Prelude.{◌≡◌, ◌<◌, ◌+◌, ◌^◌, ◌++◌, ◌∷◌, [], IfOk, OnOk, length, vec_capacity, vec_len};
ghost use Rattle.std.specs.List.{All};
ghost use Rattle.relay_desk.specs.Desk.{kth};

use crate::event::{RelayEvent, RelayNote};
use crate::pending::Pending;
use crate::sets::{DeskSet, ShownSet, Turns};
use call_io::Memory;
use std::alloc::{AllocError, Global};
use std::collections::{HashMap, HashSet};

/// A relay desk and the second point behind it, with the link between them: what the point showed last in each call,
/// the desk requests, and all messages that were ever sent. What was sent stays in flight: it may be handed over late,
/// twice, in any order or never.
#[derive(Drop)]
pub struct Relay {
    last: HashMap<u32, ShownSet>,
    /// The set of each desk request, in order.
    sets: Vec<DeskSet>,
    /// Each message forth, by the place of its set.
    forth: Vec<u32>,
    /// Each message back, by the place of its desk request's set.
    back: Vec<u32>,
    /// The places of the sets that the second point showed.
    second: HashSet<u32>,
    pending: Pending,
    ghost few: { vec_len sets < 2 ^ 32 },
    ghost alike: { length pending ≡ vec_len sets },
    ghost forth_known: { All (λ place. place < vec_len sets) forth.items },
    ghost back_known: { All (λ place. place < vec_len sets) back.items },
}

impl Relay {
    ghost use Rattle.std.specs.Prelude.{◌≡◌, ◌<◌, ◌≤◌, ◌+◌, ◌++◌, ◌↔◌, ℕ, List, [], Some, IsNone, IfOk, OnErr, MatchOption, vec_len};
    ghost use Rattle.std.specs.List.{AllByRecursion};
    ghost use Rattle.relay_desk.specs.Carried.{Fits, Sight, sights_of};
    ghost use Rattle.relay_desk.specs.Desk.{IsNextTurn, MayHappen, arrives_back, arrives_there, first_desk, goes_on, happens, hands_back, hands_forth, is_done, is_pending, made, passes, resend_after, said_again, shown_first, shows, units};
    ghost use Rattle.relay_desk.specs.RelayStands.{Gives, desk_of};
    ghost use Rattle.relay_desk.specs.Requests.{message_at};
    ghost use Rattle.relay_desk.specs.inner.Queue.{HasRoom};
    ghost use Rattle.relay_desk.specs.inner.Sets.{turn_items, turn_places};

    /// A desk at which nothing happened yet. It takes no memory.
    pub fn new(alloc: Global) -> Relay
        ensures first { desk_of result ≡ first_desk }
        ensures fits { Fits (desk_of result) [] }
    {
        Relay {
            last: HashMap::new(alloc),
            sets: Vec::new(alloc),
            forth: Vec::new(alloc),
            back: Vec::new(alloc),
            second: HashSet::new(alloc),
            pending: Pending::new(alloc),
        }
    }

    /// How many desk requests were made so far.
    pub fn requests(&self) -> u32
        ensures { result ≡ (desk_of self.now).requests }
    {
        self.sets.len() as u32
    }

    /// The least number of unit ticks of 100 ms that gives an item, 1 to 10; `None` where nothing is pending.
    pub fn due(&self) -> Option<u32>
        ensures none { IsNone result ↔ ((desk_of self.now).pending ≡ []) }
        ensures next { MatchOption result ((n : ℕ) → (units n (desk_of self.now)).items ≡ [])
            (λ n. IsNextTurn n (desk_of self.now)) }
    {
        let n = self.pending.due()?;
        Some(u32::from(n))
    }

    /// What comes of an event, in order. Where there is no memory for it, the relay is as it was.
    pub fn step(&mut self, alloc: Global, event: &RelayEvent) -> Result<Vec<RelayNote>, Memory>
        requires { MayHappen (desk_of self.old) event.now }
        ensures ok { IfOk result (λ notes. Gives notes.items self.new (happens (desk_of self.old) event.now)) }
        // Where the desk fits what was seen of it before, it fits what is seen with this event and its items.
        ensures fits { (seen : List Sight) → Fits (desk_of self.old) seen →
            IfOk result (λ notes. Fits (desk_of self.new) (seen ++ sights_of event.now notes.items)) }
        ensures err { OnErr result (desk_of self.new ≡ desk_of self.old) }
    {
        self.happen(alloc, event)
    }

    /// What comes of an event, in order.
    fn happen(&mut self, alloc: Global, event: &RelayEvent) -> Result<Vec<RelayNote>, Memory>
        requires { MayHappen (desk_of self.old) event.now }
        ensures ok { IfOk result (λ notes. Gives notes.items self.new (happens (desk_of self.old) event.now)) }
        ensures err { OnErr result (desk_of self.new ≡ desk_of self.old) }
    {
        match event {
            RelayEvent::Shown {
                call,
                request,
                octets,
            } => self.show(
                alloc,
                *call,
                ShownSet {
                    request: *request,
                    octets: *octets,
                },
            ),
            RelayEvent::Pass(call) => self.pass(alloc, *call),
            RelayEvent::Forth(k) => self.hand_forth(alloc, *k),
            RelayEvent::Back(k) => self.hand_back(alloc, *k),
            RelayEvent::Units(n) => self.elapse(alloc, *n),
        }
    }

    /// The point shows a set in a call.
    fn show(&mut self, alloc: Global, call: u32, set: ShownSet) -> Result<Vec<RelayNote>, Memory>
        ensures ok { IfOk result (λ notes. Gives notes.items self.new (shows call set (desk_of self.old))) }
        ensures err { OnErr result (desk_of self.new ≡ desk_of self.old) }
    {
        match self.last.insert(call, set) {
            Ok(_) => Ok(Vec::new(alloc)),
            Err(_) => Err(Memory),
        }
    }

    /// The set shown last in a call is to go on.
    fn pass(&mut self, alloc: Global, call: u32) -> Result<Vec<RelayNote>, Memory>
        requires { (desk_of self.old).requests < 4294967295 }
        ensures ok { IfOk result (λ notes. Gives notes.items self.new (passes call (desk_of self.old))) }
        ensures err { OnErr result (desk_of self.new ≡ desk_of self.old) }
    {
        match self.last.get(&call).copied() {
            None => alone(alloc, RelayNote::Unshown(call)),
            Some(set) => self.request(alloc, DeskSet { call, set }),
        }
    }

    /// A desk request is made, with this set.
    fn request(&mut self, alloc: Global, set: DeskSet) -> Result<Vec<RelayNote>, Memory>
        requires { (desk_of self.old).requests < 4294967295 }
        ensures ok { IfOk result (λ notes. Gives notes.items self.new (goes_on (made set.call set.set
            (desk_of self.old)) (desk_of self.old))) }
        ensures err { OnErr result (desk_of self.new ≡ desk_of self.old) }
    {
        let place = self.sets.len() as u32;
        let notes = alone(alloc, set.sent(place))?;
        make_room(&mut self.sets)?;
        make_room(&mut self.forth)?;
        self.pending.push()?;
        put(&mut self.sets, set);
        put(&mut self.forth, place);
        Ok(notes)
    }

    /// The k-th message forth is handed over.
    fn hand_forth(&mut self, alloc: Global, k: u32) -> Result<Vec<RelayNote>, Memory>
        ensures ok { IfOk result (λ notes. Gives notes.items self.new (hands_forth k (desk_of self.old))) }
        ensures err { OnErr result (desk_of self.new ≡ desk_of self.old) }
    {
        match nth(&self.forth, k) {
            None => alone(alloc, RelayNote::Nothing),
            Some(place) => self.arrive_there(alloc, place),
        }
    }

    /// The second point has the message with the set of this place.
    fn arrive_there(&mut self, alloc: Global, place: u32) -> Result<Vec<RelayNote>, Memory>
        requires { place < vec_len self.old.sets }
        ensures ok { IfOk result (λ notes. Gives notes.items self.new (arrives_there (Some (message_at
            self.old.sets.items place)) (desk_of self.old))) }
        ensures err { OnErr result (desk_of self.new ≡ desk_of self.old) }
    {
        let number = place + 1;
        if self.second.contains(&number) {
            self.say_again(alloc, place)
        } else {
            self.show_there(alloc, place)
        }
    }

    /// The second point says again that it has the set of this place.
    fn say_again(&mut self, alloc: Global, place: u32) -> Result<Vec<RelayNote>, Memory>
        requires { place < vec_len self.old.sets }
        ensures ok { IfOk result (λ notes. Gives notes.items self.new (said_again (message_at
            self.old.sets.items place) (desk_of self.old))) }
        ensures err { OnErr result (desk_of self.new ≡ desk_of self.old) }
    {
        let notes = alone(alloc, RelayNote::Back(place + 1))?;
        make_room(&mut self.back)?;
        put(&mut self.back, place);
        Ok(notes)
    }

    /// The second point shows the set of this place, and says that it has it.
    fn show_there(&mut self, alloc: Global, place: u32) -> Result<Vec<RelayNote>, Memory>
        requires { place < vec_len self.old.sets }
        ensures ok { IfOk result (λ notes. Gives notes.items self.new (shown_first (message_at
            self.old.sets.items place) (desk_of self.old))) }
        ensures err { OnErr result (desk_of self.new ≡ desk_of self.old) }
    {
        let shown = self.sets[place as usize].shown(place);
        let notes = both(alloc, shown, RelayNote::Back(place + 1))?;
        make_room(&mut self.back)?;
        if self.second.insert(place + 1).is_err() {
            return Err(Memory);
        }
        put(&mut self.back, place);
        Ok(notes)
    }

    /// The k-th message back is handed over.
    fn hand_back(&mut self, alloc: Global, k: u32) -> Result<Vec<RelayNote>, Memory>
        ensures ok { IfOk result (λ notes. Gives notes.items self.new (hands_back k (desk_of self.old))) }
        ensures err { OnErr result (desk_of self.new ≡ desk_of self.old) }
    {
        match nth(&self.back, k) {
            None => alone(alloc, RelayNote::Nothing),
            Some(place) => self.arrive_back(alloc, place),
        }
    }

    /// The desk hears that the second point has the set of this place.
    fn arrive_back(&mut self, alloc: Global, place: u32) -> Result<Vec<RelayNote>, Memory>
        requires { place < vec_len self.old.sets }
        ensures ok { IfOk result (λ notes. Gives notes.items self.new (arrives_back (Some (place + 1))
            (desk_of self.old))) }
        ensures err { OnErr result (desk_of self.new ≡ desk_of self.old) }
    {
        if self.is_pending(place) {
            self.finish(alloc, place)
        } else {
            Ok(Vec::new(alloc))
        }
    }

    /// Whether the desk request whose set stands at this place is pending.
    fn is_pending(&self, place: u32) -> bool
        requires { place < vec_len self.now.sets }
        ensures { result ≡ is_pending (place + 1) (desk_of self.now).pending }
    {
        self.pending.is_pending(place as usize)
    }

    /// The desk request whose set stands at this place is done.
    fn finish(&mut self, alloc: Global, place: u32) -> Result<Vec<RelayNote>, Memory>
        requires { place < vec_len self.old.sets }
        ensures ok { IfOk result (λ notes. Gives notes.items self.new (is_done (place + 1) (desk_of self.old))) }
        ensures err { OnErr result (desk_of self.new ≡ desk_of self.old) }
    {
        let notes = alone(alloc, RelayNote::Done(place + 1))?;
        self.pending.settle(place as usize);
        Ok(notes)
    }

    /// So many unit ticks pass, of which the last alone may bring turns.
    fn elapse(&mut self, alloc: Global, n: u32) -> Result<Vec<RelayNote>, Memory>
        requires { (m : ℕ) → m < n → (units m (desk_of self.old)).items ≡ [] }
        ensures ok { IfOk result (λ notes. Gives notes.items self.new (units n (desk_of self.old))) }
        ensures err { OnErr result (desk_of self.new ≡ desk_of self.old) }
    {
        match self.pending.due() {
            None => Ok(Vec::new(alloc)),
            Some(due) => {
                if n < u32::from(due) {
                    self.grow_older(n as u8);
                    Ok(Vec::new(alloc))
                } else {
                    self.take_turns(alloc, due)
                }
            }
        }
    }

    /// So many unit ticks pass, in which no turn comes.
    fn grow_older(&mut self, n: u8)
        requires most { n < resend_after }
        requires room { AllByRecursion (HasRoom (n + 1)) self.old.pending }
        ensures items { (units n (desk_of self.old)).items ≡ [] }
        ensures desk { desk_of self.new ≡ (units n (desk_of self.old)).desk }
    {
        self.pending.idle(n);
    }

    /// So many unit ticks pass, and the last of them brings turns.
    fn take_turns(&mut self, alloc: Global, n: u8) -> Result<Vec<RelayNote>, Memory>
        requires some { 1 ≤ n }
        requires most { n ≤ resend_after }
        requires room { AllByRecursion (HasRoom n) self.old.pending }
        ensures ok { IfOk result (λ notes. Gives notes.items self.new (units n (desk_of self.old))) }
        ensures err { OnErr result (desk_of self.new ≡ desk_of self.old) }
    {
        let Ok(turns) = self.turns(alloc, n) else {
            return Err(Memory);
        };
        match self.forth.extend_from_slice(&turns.again) {
            Ok(()) => {
                self.pending.pass(n);
                Ok(turns.notes)
            }
            Err(_) => Err(Memory),
        }
    }

    /// What the n-th unit tick from now brings, where no turn comes before.
    fn turns(&self, alloc: Global, n: u8) -> Result<Turns, AllocError>
        requires some { 1 ≤ n }
        requires most { n ≤ resend_after }
        requires room { AllByRecursion (HasRoom n) self.now.pending }
        ensures notes { IfOk result (λ turns. turns.notes.items
            ≡ turn_items n 0 self.now.sets.items self.now.pending) }
        ensures again { IfOk result (λ turns. turns.again.items
            ≡ turn_places n 0 self.now.sets.items self.now.pending) }
    {
        let mut turns = Turns::with_room(alloc, self.pending.turns_in(n))?;
        for place in self.pending.first()..self.sets.len() {
            turns.add(self.pending.turn(place, n), place as u32, &self.sets[place])?;
        }
        Ok(turns)
    }
}

/// The k-th of these places, from 1.
fn nth(places: &[u32], k: u32) -> Option<u32>
    ensures { result ≡ kth k places.now }
{
    if k == 0 {
        return None;
    }
    places.get(k as usize - 1).copied()
}

/// An item alone.
fn alone(alloc: Global, note: RelayNote) -> Result<Vec<RelayNote>, Memory>
    ensures { IfOk result (λ notes. notes.items ≡ note ∷ []) }
{
    let mut notes = Vec::new(alloc);
    match notes.push(note) {
        Ok(()) => Ok(notes),
        Err(_) => Err(Memory),
    }
}

/// Two items.
fn both(alloc: Global, first: RelayNote, second: RelayNote) -> Result<Vec<RelayNote>, Memory>
    ensures { IfOk result (λ notes. notes.items ≡ first ∷ second ∷ []) }
{
    let mut notes = alone(alloc, first)?;
    match notes.push(second) {
        Ok(()) => Ok(notes),
        Err(_) => Err(Memory),
    }
}

/// Makes room for one more.
fn make_room<T>(list: &mut Vec<T>) -> Result<(), Memory>
    ensures items { list.new.items ≡ list.old.items }
    ensures room { OnOk result (vec_len list.new < vec_capacity list.new) }
{
    match list.reserve(1) {
        Ok(()) => Ok(()),
        Err(_) => Err(Memory),
    }
}

/// Puts one more where there is room.
fn put<T: Drop>(list: &mut Vec<T>, item: T)
    requires { vec_len list.old < vec_capacity list.old }
    ensures { list.new.items ≡ list.old.items ++ item ∷ [] }
{
    match list.push(item) {
        Ok(()) => {}
        Err(_) => unreachable!(),
    }
}
