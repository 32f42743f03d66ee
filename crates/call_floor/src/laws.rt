//! Laws over the definitions of the floor.

ghost use Rattle.std.specs.Prelude.{◌≡◌, ◌<◌, ◌++◌, ℕ, List, [], Some, None};
ghost use Rattle.msd_fit.specs.declared.facts.Facts.{Facts};
ghost use Rattle.trace_model.specs.Safety.{Safe};
ghost use Rattle.channel_sim.specs.World.{World, first_world};
ghost use Rattle.channel_sim.specs.Lines as lines;
ghost use Rattle.call_floor.specs.declared.event.FloorEvent.{FloorEvent as Line};
ghost use Rattle.call_floor.specs.Floor.{Floor, Stand, stand_of, floor_with, first_stand, joined};
ghost use Rattle.call_floor.specs.FloorKept.{IsKept};
ghost use Rattle.call_floor.specs.FloorLines.{floor_step, floor_after, trace_from};
ghost use Rattle.call_floor.specs.Parts.{only, part, mine, mine_one, step_if, IsPart, place, number};

/// A step of the floor is for each vehicle the step of the world of that vehicle alone, where its line is kept for it,
/// and else nothing. So it is for whole runs, and each vehicle's part is safe.
pub fn vehicles_are_apart()
    ensures step { (w : Floor) (e : Line) (v : ℕ) (u : World) → IsKept w → only v w ≡ Some u →
        IsPart v (floor_step w e).floor (floor_step w e).entries (step_if (mine_one v w e) u) }
    ensures kept { (w : Floor) (e : Line) → IsKept w → IsKept (floor_step w e).floor }
    ensures told { (w : Floor) (events : List Line) (v : ℕ) (u : World) → IsKept w → only v w ≡ Some u →
        part (floor_after w events) (trace_from w events) v ≡ lines.trace_from u (mine w events v) }
    ensures world { (w : Floor) (events : List Line) (v : ℕ) (u : World) → IsKept w →
        only v w ≡ Some u → only v (floor_after w events) ≡ Some (lines.world_after u (mine w events v)) }
    ensures safe { (w : Floor) (events : List Line) (v : ℕ) (known : Facts) → IsKept w →
        only v w ≡ Some (first_world known) →
        Safe (part (floor_after w events) (trace_from w events) v) (floor_after w events).tick }
{}

/// What every floor keeps holds before anything happened. Each vehicle that joins there is alone in its first world, and
/// for the others it is as if it weren't there.
pub fn first_floors_are_kept()
    ensures none { IsKept (floor_with []) }
    ensures joined { (v : ℕ) (known : Facts) (stands : List Stand) → 0 < v → stand_of v stands ≡ None →
        IsKept (floor_with stands) → IsKept (floor_with (joined (first_stand v known) stands)) }
    ensures first { (v : ℕ) (known : Facts) (stands : List Stand) → stand_of v stands ≡ None →
        only v (floor_with (joined (first_stand v known) stands)) ≡ Some (first_world known) }
    ensures others { (v a : ℕ) (known : Facts) (stands : List Stand) → (a ≡ v → ⊥) →
        only a (floor_with (joined (first_stand v known) stands)) ≡ only a (floor_with stands) }
    ensures stands { (v a : ℕ) (known : Facts) (stands : List Stand) → (a ≡ v → ⊥) →
        stand_of a (joined (first_stand v known) stands) ≡ stand_of a stands }
{}

/// A place and its number are each other's inverse.
pub fn numbers_are_names()
    ensures back { (v : ℕ) (drawn : List ℕ) (k : ℕ) → place v drawn (number v drawn k) ≡ k }
{}
