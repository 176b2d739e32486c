// The representation invariant of the state and what keeps it: this crate is its specs/ and proofs/.

#![tactic(auto)]
