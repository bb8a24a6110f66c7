// Request C-19's fixed list: the name of each field, and whether its numbers are codes.
#![tactic(auto)]

ghost use Rattle.std.specs.Prelude.{◌≡◌, ◌++◌, ◌-◌, length, replicate};
ghost use Rattle.fields.specs.Names.{name_of, code_field, code_row, codes};

use rows::{Field, Row};

// The name of a field, of at most 39 letters.
pub fn name(f: Field) -> &'static str
    ensures { result.now ≡ name_of f }
{
    match f {
        Field::Soc => "SOC start marker",
        Field::Cap => "CAP capabilities marker",
        Field::Lcap => "Lcap capabilities length",
        Field::Pih => "PIH picture header marker",
        Field::Lpih => "Lpih picture header length",
        Field::Lcod => "Lcod stream length",
        Field::Wf => "Wf width",
        Field::Hf => "Hf height",
        Field::Cw => "width modulo precinct column",
        Field::Hsl => "Hsl slice height",
        Field::Nc => "Nc number of components",
        Field::Ng => "Ng code group size",
        Field::Ss => "Ss significance group size",
        Field::Bw => "Bw wavelet precision",
        Field::Fq => "Fq fractional bits",
        Field::Br => "Br bits of a raw count",
        Field::Fslc => "Fslc slice coding mode",
        Field::Ppoc => "Ppoc progression order",
        Field::Cpih => "Cpih colour transform",
        Field::Nlx => "NLx levels across",
        Field::Nly => "NLy levels down",
        Field::Qpih => "Qpih quantiser",
        Field::Fs => "Fs sign handling",
        Field::Rm => "Rm run mode",
        Field::Next => "marker",
        Field::Cdt => "component tables",
        Field::Wgt => "weights tables",
        Field::Nlt => "non-linear output segments",
        Field::Cwd => "CWD segments",
        Field::Cts => "colour transform segments",
        Field::Crg => "component registrations",
        Field::Tpc => "temporal control segments",
        Field::Wgr => "refresh weights tables",
        Field::Sli => "temporal slice headers",
        Field::Lcdt => "Lcdt component table length",
        Field::B => "B component precision",
        Field::Sx => "sx sampling across",
        Field::Sy => "sy sampling down",
        Field::Across => "samples joined by a filter across",
        Field::Down => "samples joined by a filter down",
        Field::Lwgt => "Lwgt weights table length",
        Field::G => "gain",
        Field::Lcom => "Lcom extension length",
        Field::Tcom => "Tcom extension type",
        Field::Lcrg => "Lcrg registration length",
        Field::Lcwd => "Lcwd CWD length",
        Field::Sd => "Sd undecomposed components",
        Field::Samples => "sample cells",
        Field::Work => "work cells",
        Field::Marks => "marks in bytes",
        Field::Distances => "distance cells",
        Field::Slh => "SLH slice marker",
        Field::Lslh => "Lslh slice header length",
        Field::Ysl => "Ysl slice index",
        Field::Lprc => "Lprc precinct length",
        Field::Precinct => "whole precinct in bytes",
        Field::Q => "Q quantisation",
        Field::R => "R refinement",
        Field::D => "vertical prediction bit of D",
        Field::Packet => "packet header bytes",
        Field::Dr => "Dr raw flag",
        Field::Significance => "significance bytes",
        Field::Counts => "Lcnt count bytes",
        Field::M => "bitplane count",
        Field::Ones => "one-bits of a count code",
        Field::Data => "Ldat data bytes",
        Field::Signs => "Lsgn sign bytes",
        Field::Rest => "bytes behind the last packet",
        Field::Eoc => "EOC end marker",
        Field::Tail => "bytes behind the end marker",
    }
}

// The same in 40 bytes, with zeros behind it, as C takes it.
pub fn padded_name(f: Field) -> [u8; 40]
    ensures { result ≡ name_of f ++ replicate (40 - length (name_of f)) 0 }
{
    let text = name(f).as_bytes();
    let mut padded = [0u8; 40];
    padded[..text.len()].copy_from_slice(text);
    padded
}

fn code_field(f: Field) -> bool
    ensures { result ≡ code_field f }
{
    matches!(
        f,
        Field::Soc | Field::Cap | Field::Pih | Field::Next | Field::Tcom | Field::Slh | Field::Eoc
    )
}

fn code_row(row: Row) -> bool
    ensures { result ≡ code_row row }
{
    matches!(row, Row::Marker | Row::Value | Row::Lacking)
}

// Whether the numbers of a broken check are codes, which the papers write in hexadecimal.
pub fn are_codes(row: Row, f: Field) -> bool
    ensures { result ≡ codes row f }
{
    code_row(row) & code_field(f)
}
