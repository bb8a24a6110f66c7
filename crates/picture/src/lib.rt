// The first three segments: start of codestream, capabilities, picture header.
#![tactic(auto)]

pub mod marker;
pub mod opening;
pub mod picture;
pub mod segment;
