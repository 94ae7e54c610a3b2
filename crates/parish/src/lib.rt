#![tactic(auto)]

pub mod layer;
