#![tactic(auto)]

pub mod crossing;
pub mod form;
pub mod vertex;
