//! Recipes: small functions for common video tasks, each with a contract. `docs/RECIPES.md` shows them.
//!
//! They use only public contracts, and are meant to be copied. Not part of `v_frame` 0.7.0.
#![tactic(auto)]

pub mod crop;
pub mod deepen;
pub mod letterbox;
pub mod negative;
pub mod places;
pub mod turned;
