// What is said of the counts of a code group: how they are coded, and what reading one finds.

// The bitplane count coding modes.
#[derive(Clone, Copy)]
pub enum Mode {
    Raw,
    NoPrediction,
    Vertical,
}

// How the counts of a line are coded: `flags` where D[p,b] & 2, `run` where Rm = 1, T[p,b] and Br. `fs`, where Fs = 1, counts only for the
// nibbles of data.
#[derive(Clone, Copy)]
pub struct Coding {
    pub mode: Mode,
    pub flags: bool,
    pub run: bool,
    pub fs: bool,
    pub t: usize,
    pub br: usize,
}

// The count of a group that is read, and the bit past its code.
#[derive(Clone, Copy)]
pub struct Count {
    pub m: usize,
    pub next: usize,
}

// Why counts cannot be read: the stretch's end cuts a code, a count is out of range, or so many 1-bits stand where a code stood that they are none.
#[derive(Clone, Copy)]
pub enum Fault {
    Cut,
    High(usize),
    Long(usize),
}
