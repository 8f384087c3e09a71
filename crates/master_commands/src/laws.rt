//! Laws about a core that is being loaded, for the proofs of callers.

ghost use Rattle.master_state.specs.Loading.{BareGoesOn, PushedIsWhole};

/// States two laws. A bare core stays bare when a roll begins, when the core halts, and when a push was taken. If
/// nothing is left to be pushed, no roll or failover is under way, and each replica of the head has all units.
pub fn loading_goes_on()
    ensures bare { BareGoesOn }
    ensures whole { PushedIsWhole }
{}
