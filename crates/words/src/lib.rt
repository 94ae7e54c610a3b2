#![tactic(auto)]

pub mod keyword;
