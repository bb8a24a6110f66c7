// The codes of markers, Table A.2, and of extensions.
#[derive(Clone, Copy)]
pub struct Marker;

impl Marker {
    pub const SOC: usize = 0xff10;

    pub const EOC: usize = 0xff11;

    pub const PIH: usize = 0xff12;

    pub const CDT: usize = 0xff13;

    pub const WGT: usize = 0xff14;

    pub const COM: usize = 0xff15;

    pub const NLT: usize = 0xff16;

    pub const CWD: usize = 0xff17;

    pub const CTS: usize = 0xff18;

    pub const CRG: usize = 0xff19;

    pub const TPC: usize = 0xff1a;

    pub const WGR: usize = 0xff1b;

    pub const SLH: usize = 0xff20;

    pub const SLI: usize = 0xff21;

    pub const CAP: usize = 0xff50;
}

#[derive(Clone, Copy)]
pub struct Extension;

impl Extension {
    // the bench caption
    pub const CAPTION: usize = 0x8b01;
}
