#![tactic(auto)]

pub mod answers;
pub mod line;
pub mod obeying;
pub mod planes;
pub mod text;
