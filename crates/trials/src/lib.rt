#![tactic(auto)]

pub mod everything;
#[cfg(test)]
mod tests;
