// Definitions and laws of whole numbers that every crate above cites (specs/, proofs/), and what kinds of value they stand for.
#![tactic(auto)]

// What a whole number in a work cell stands for: a sample on its way, or the distance number of one. Annexes E, F and G and document 01's rules for them go the
// same way through the cells, and a kind says which of the two is at hand.
#[derive(Clone, Copy, PartialEq, Eq)]
pub enum Kind {
    Samples,
    Numbers,
}
