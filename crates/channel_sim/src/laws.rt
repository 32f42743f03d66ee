//! Laws over the definitions of the world: what holds of every script, whatever the channel does.

ghost use Rattle.std.specs.Prelude.{◌≡◌, ◌+◌, ◌||◌, ℕ, List, [], ◌++◌};
ghost use Rattle.std.specs.Option.{is_some};
ghost use Rattle.link_frames.specs.declared.frame.End.TheVariants as «end»;
ghost use Rattle.msd_fit.specs.declared.facts.Facts.{Facts};
ghost use Rattle.trace_model.specs.declared.entry.Entry.{Entry};
ghost use Rattle.trace_model.specs.declared.event.Event.{Event};
ghost use Rattle.trace_model.specs.Safety.{Finished, Safe, leg_at};
ghost use Rattle.channel_sim.specs.World.{World, call_of, first_world, point_is_in, unit, units, vehicle_is_in};
ghost use Rattle.channel_sim.specs.Lines.{step, trace, trace_from, world_after};
ghost use Rattle.channel_sim.specs.Fit.{Fit};
ghost use Rattle.trace_fit.specs.Order.{WasSent};

/// For every script, whatever is lost, late, repeated or out of order: each set that the vehicle counts as acknowledged
/// was shown earlier by the point for that call, octet for octet; where a wait for data ends, or a fault comes, a muted
/// voice opens at once; and no end is muted for longer than its limit, up to the tick at which the script ends. It
/// follows from an invariant that holds at first and that each step keeps, be it a line or a unit tick.
pub fn traces_are_safe()
    ensures safe { (known : Facts) (events : List Event) →
        Safe (trace known events) (world_after (first_world known) events).tick }
    ensures finished { (known : Facts) (events : List Event) → Finished (trace known events) }
    // So it is behind each of its lines: the trace of the lines before is a front of the whole.
    ensures front { (known : Facts) (before after : List Event) → trace known (before ++ after)
        ≡ trace known before ++ trace_from (world_after (first_world known) before) after }
    // And behind each unit tick of a line: a line of n + m ticks is one of n and then one of m.
    ensures ticks { (n m : ℕ) (w : World) →
        (units (n + m) w).entries ≡ (units n w).entries ++ (units m (units n w).world).entries }
    ensures fits { (known : Facts) (events : List Event) →
        Fit (world_after (first_world known) events) (trace known events) }
    ensures first { (known : Facts) → Fit (first_world known) [] }
    ensures kept { (w : World) (entries : List Entry) (e : Event) → Fit w entries →
        Fit (step w e).world (entries ++ (step w e).entries) }
    ensures ticked { (w : World) (entries : List Entry) → Fit w entries →
        Fit (unit w).world (entries ++ (unit w).entries) }
{}

/// What the invariant says of a world and its entries: each leg is up in the one exactly where it is up in the other,
/// the world has a call, with its frames, exactly while one of its legs is up, and there is one set for each request of
/// a call.
pub fn fitting_worlds()
    ensures vehicle_leg { (w : World) (entries : List Entry) (c : ℕ) → Fit w entries →
        (leg_at «end».Vehicle c entries).up ≡ vehicle_is_in c w }
    ensures point_leg { (w : World) (entries : List Entry) (c : ℕ) → Fit w entries →
        (leg_at «end».Point c entries).up ≡ point_is_in c w }
    ensures calls { (w : World) (entries : List Entry) (c : ℕ) → Fit w entries →
        is_some (call_of c w.calls) ≡ ((leg_at «end».Vehicle c entries).up || (leg_at «end».Point c entries).up) }
    ensures one_set { (w : World) (entries : List Entry) → Fit w entries → (c r : ℕ) (o p : List ℕ) →
        WasSent c r o entries → WasSent c r p entries → o ≡ p }
{}
