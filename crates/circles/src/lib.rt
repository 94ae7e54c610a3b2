#![tactic(auto)]

// Points, circles and the smallest enclosing disc, for the proofs of other crates: specs/ and proofs/ hold all of it.
