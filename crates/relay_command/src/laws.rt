//! What holds of all traces of `relay`.

ghost use Rattle.std.specs.Prelude.{◌≡◌, ℕ, List, None};
ghost use Rattle.trace_model.specs.Safety.{Safe};
ghost use Rattle.script_stage.specs.ScriptTrace.{script_tick, script_trace};
ghost use Rattle.relay_command.specs.Carried.{IsCarried};
ghost use Rattle.relay_command.specs.OfRun.{of_world, script_without_orders};
ghost use Rattle.relay_command.specs.Relay.{relay_trace};

/// The laws of the traces of `relay`, whatever either link loses, repeats or reorders. This does nothing: its contract is
/// the laws.
pub fn relay_laws()
    // Its entries of the world are those of `run` for the lines in front of the first that is refused, without the orders
    // to the desk; and of these lines `run` refuses none.
    ensures as_run { (input : List ℕ) → of_world (relay_trace input) ≡ script_trace (script_without_orders input) }
    ensures accepted { (input : List ℕ) → (script_without_orders input).refused ≡ None }
    // So they are a safe trace.
    ensures safe { (input : List ℕ) → Safe (of_world (relay_trace input)) (script_tick (script_without_orders input)) }
    // What the second point shows was sent by the vehicle and shown by the point; each desk request's set is shown there
    // once; and what is done was shown there.
    ensures carried { (input : List ℕ) → IsCarried (relay_trace input) }
{}
