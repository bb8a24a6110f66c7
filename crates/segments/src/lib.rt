// The segments between the picture header and the first slice header.
#![tactic(auto)]

pub mod components;
pub mod kinds;
mod numbers;
pub mod seen;
pub mod tables;
pub mod weights;
