#![tactic(auto)]

pub mod problem;
pub mod theory;
