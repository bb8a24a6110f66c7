// Annex B of the standard: bands, precincts, the lines of each packet, and where each coefficient lies.
#![tactic(auto)]

pub mod bands;
pub mod headers;
pub mod lines;
pub mod numbers;
pub mod precincts;

// What Annex B needs of a picture's header. Entries of sx and sy past the components are 0.
#[derive(Clone, Copy)]
pub struct Shape {
    pub wf: usize,
    pub hf: usize,
    pub cw: usize,
    pub hsl: usize,
    pub nc: usize,
    pub nlx: usize,
    pub nly: usize,
    pub sx: [usize; 4],
    pub sy: [usize; 4],
}

// A line of a band in a precinct: which it is, where its coefficients lie, and how many they are. Count cells stand `area` cells behind the
// coefficients; the line above in the band stands `up` cells before. `present` is no Option around the rest: `line` of specs/Slots, and what packets says
// by it, have the band and the places of a line that the precinct does not have too.
#[derive(Clone, Copy)]
pub struct Line {
    pub present: bool,
    pub band: usize,
    pub component: usize,
    pub cell: usize,
    pub stride: usize,
    pub width: usize,
    pub groups: usize,
    pub marks: usize,
    pub y: usize,
    pub area: usize,
    pub up: usize,
}
