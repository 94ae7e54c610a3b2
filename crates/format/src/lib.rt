#![tactic(auto)]

pub mod command;
pub mod line;
pub mod narrowing;
pub mod statement;
#[cfg(test)]
mod tests;
