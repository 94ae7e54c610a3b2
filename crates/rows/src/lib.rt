#![tactic(auto)]

pub mod numbers;
pub mod positions;
pub mod range;
pub mod refusal;
pub mod row;
