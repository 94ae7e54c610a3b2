#![tactic(auto)]

pub mod shuffling;
pub mod walking;
