//! The law of two ends that run apart, over the definitions of their runs.

ghost use Rattle.std.specs.Prelude.{◌≡◌, ◌≤◌, ℕ, List};
ghost use Rattle.trace_model.specs.Safety.{Safe};
ghost use Rattle.live_link.specs.Joint.{RunsFit, joint, joint_rounds, joint_trace};
ghost use Rattle.live_link.specs.Scripts.{point_live, vehicle_live};
ghost use Rattle.live_link.specs.Turns.{entries_of};

/// For every two scripts, and all octets that the ends may have read: where each frame that one end heard in a call was
/// sent by the other in that call in an earlier round, the entries of both, joined by ticks up to the lower of their
/// numbers of rounds, are safe up to that number.
pub fn joint_is_safe()
    ensures safe { (vehicle_script from_point point_script from_vehicle : List ℕ) →
        RunsFit (vehicle_live vehicle_script from_point) (point_live point_script from_vehicle) →
        Safe (joint_trace (vehicle_live vehicle_script from_point) (point_live point_script from_vehicle))
        (joint_rounds (vehicle_live vehicle_script from_point) (point_live point_script from_vehicle)) }
    // So they are up to each earlier round.
    ensures earlier { (vehicle_script from_point point_script from_vehicle : List ℕ) →
        RunsFit (vehicle_live vehicle_script from_point) (point_live point_script from_vehicle) → (n : ℕ) →
        n ≤ joint_rounds (vehicle_live vehicle_script from_point) (point_live point_script from_vehicle) →
        Safe (joint n (entries_of (vehicle_live vehicle_script from_point).turns)
        (entries_of (point_live point_script from_vehicle).turns)) n }
{}
