//! Examples that write pictures as PNG, with exact contracts.
#![tactic(auto)]

pub mod gray;
pub mod rows;
