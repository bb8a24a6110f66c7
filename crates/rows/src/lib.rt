// Refusals: a check and its range, and the first broken check of a table.
#![tactic(auto)]

ghost use Rattle.std.specs.Prelude.{◌≡◌};
ghost use Rattle.rows.specs.Rows.{number, answer, place_of, first};

// The rows of document 01's table of refusal numbers, in its order.
#[derive(Clone, Copy)]
pub enum Row {
    // the stream ends before a header field or marker segment does
    Cut = 1,
    // a marker is unknown, repeated, missing or misplaced, or bytes follow the end marker
    Marker = 2,
    // a field has a reserved or forbidden value, or contradicts an earlier field
    Value = 3,
    // the standard allows it, this build lacks it
    Lacking = 4,
    // a lent buffer is too short
    Lent = 5,
    // a declared length does not fit the stream, the precinct or the subpacket
    Length = 6,
    // a bitplane count falls outside 0 to 31
    Count = 7,
    // vertical prediction in a top row, or raw flags that differ
    Mode = 8,
}

impl Row {
    // Document 01's number of a row.
    pub fn number(self) -> u8
        ensures { result ≡ number self }
    {
        self as u8
    }
}

// The fixed list of fields, in the order of a stream and in the standard's letters.
#[derive(Clone, Copy)]
pub enum Field {
    Soc,
    Cap,
    Lcap,
    Pih,
    Lpih,
    Lcod,
    Wf,
    Hf,
    Cw,
    Hsl,
    Nc,
    Ng,
    Ss,
    Bw,
    Fq,
    Br,
    Fslc,
    Ppoc,
    Cpih,
    Nlx,
    Nly,
    Qpih,
    Fs,
    Rm,
    // the marker of a segment after the picture header
    Next,
    // segments, counted: how many of a kind there are by now
    Cdt,
    Wgt,
    Nlt,
    Cwd,
    Cts,
    Crg,
    Tpc,
    Wgr,
    Sli,
    // their lengths and contents
    Lcdt,
    B,
    Sx,
    Sy,
    // samples that a filter joins, across and down
    Across,
    Down,
    Lwgt,
    G,
    Lcom,
    Tcom,
    Lcrg,
    Lcwd,
    Sd,
    // cells lent
    Samples,
    Work,
    Marks,
    Distances,
    // slices and precincts
    Slh,
    Lslh,
    Ysl,
    Lprc,
    // a whole precinct, its header and what Lprc declares
    Precinct,
    Q,
    R,
    D,
    // a packet's header, and its subpackets
    Packet,
    Dr,
    Significance,
    Counts,
    // a bitplane count, and the one-bits of a code of one
    M,
    Ones,
    Data,
    Signs,
    // bytes of a precinct that its packets leave
    Rest,
    Eoc,
    // bytes after the end marker
    Tail,
}

// Row, place, field, value found, least and most expected: broken where the value found is not from the least to the most. A broken check is what a refusal says.
#[derive(Clone, Copy)]
pub struct Check(
    pub Row,
    pub usize,
    pub Field,
    pub usize,
    pub usize,
    pub usize,
);

// Where there is no most.
pub const AMPLE: usize = 0xffff_ffff_ffff_ffff;

// Nothing is refused, or the first broken check.
pub type Verdict = Result<(), Check>;

// The number of an answer: 0 where nothing is refused.
pub fn answer(v: Verdict) -> u8
    ensures { result ≡ answer v }
{
    match v {
        Ok(()) => 0,
        Err(c) => c.0.number(),
    }
}

// The place of an answer: that of the broken check, or of what was read.
pub fn place(v: Verdict, end: usize) -> usize
    ensures { result ≡ place_of v end }
{
    match v {
        Ok(()) => end,
        Err(c) => c.1,
    }
}

// The first broken check of a table decides.
pub fn first(t: &[Check]) -> Verdict
    ensures { result ≡ first t.now }
{
    for c in t {
        if c.3 < c.4 || c.5 < c.3 {
            return Err(*c);
        }
    }
    Ok(())
}
