#![tactic(auto)]

pub mod answer;
mod place;
mod point;
pub mod problem;
mod triangle;
mod vector;
