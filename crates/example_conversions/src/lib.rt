//! Examples for the crates that convert pictures: small functions with exact contracts, most of which need no proof by hand.
#![tactic(auto)]

pub mod colors;
pub mod composition;
pub mod convert;
pub mod motion_search;
pub mod semi_planar;
pub mod sizes;
pub mod statistics;
pub mod turns;
