#![tactic(auto)]

pub mod answer;
pub mod problem;
mod search;
