// The definitions of the gateway, and what is claimed of them: this crate is its specs/ and proofs/.
#![tactic(auto)]

ghost use Rattle.gateway.specs.Claims.{Claims};

// What specs/Claims.antt claims holds. Nothing calls this: it is here for its proof.
pub fn claims()
    ensures { Claims }
{}
