#![tactic(auto)]

// Limits in the plane and the least point that keeps them, for the proofs of other crates: specs/ and proofs/ hold all of it.
