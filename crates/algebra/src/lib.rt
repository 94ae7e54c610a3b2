#![tactic(auto)]

// Whole numbers and fractions, for the proofs of other crates: specs/ and proofs/ hold all of it.
