#![tactic(auto)]

pub mod reduce;
