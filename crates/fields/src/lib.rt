#![tactic(auto)]

pub mod byte;
pub mod number;
#[cfg(test)]
mod tests;
pub mod token;
