#![tactic(auto)]

pub mod contents;
pub mod settled;
pub mod table;
pub mod working;
