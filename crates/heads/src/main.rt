// Reads the header of each file that is named, and prints the answer's number and place, or the header's fields.
#![tactic(auto)]

use header::header::Header;
use input::each_file;
use picture::picture::Picture;
use std::io;

fn print_sizes(rt: &impl Print, h: Picture) -> io::Result<()> {
    print!(rt;
        "  Lcod {} Ppih {} Plev {} Wf {} Hf {}",
        h.lcod, h.ppih, h.plev, h.wf, h.hf
    )?;
    println!(rt;
        " Cw {} Hsl {} Nc {} Ng {} Ss {}",
        h.cw, h.hsl, h.nc, h.ng, h.ss
    )
}

fn print_modes(rt: &impl Print, h: Picture) -> io::Result<()> {
    print!(rt;
        "  Bw {} Fq {} Br {} Fslc {} Ppoc {} Cpih {}",
        h.bw, h.fq, h.br, h.fslc, h.ppoc, h.cpih
    )?;
    println!(rt;
        " NLx {} NLy {} Lh {} Rl {} Qpih {} Fs {} Rm {}",
        h.nlx, h.nly, h.lh, h.rl, h.qpih, h.fs, h.rm
    )
}

// All four entries, used or not.
fn print_components(rt: &impl Print, h: Header) -> io::Result<()> {
    for c in 0..4 {
        let (depth, sx, sy) = (h.depth[c], h.sx[c], h.sy[c]);
        println!(rt; "  component {c} B {depth} sx {sx} sy {sy}")?;
    }
    Ok(())
}

// All forty bands, existing or not.
fn print_bands(rt: &impl Print, name: &str, weights: [u8; 40]) -> io::Result<()> {
    print!(rt; "  {name}")?;
    for weight in &weights {
        print!(rt; " {weight}")?;
    }
    println!(rt; "")
}

fn print_caption(rt: &impl Print, there: bool) -> io::Result<()> {
    if there {
        println!(rt; "  caption yes")
    } else {
        println!(rt; "  caption no")
    }
}

fn print_header(rt: &impl Print, h: Header) -> io::Result<()> {
    println!(rt; " slice at {}", h.slice)?;
    print_sizes(rt, h.picture)?;
    print_modes(rt, h.picture)?;
    print_components(rt, h)?;
    print_bands(rt, "gains", h.gains)?;
    print_bands(rt, "priorities", h.priorities)?;
    print_caption(rt, h.caption)
}

fn print_stream(rt: &impl Print, name: &str, s: &[u8]) -> io::Result<()> {
    print!(rt; "{name}:")?;
    match header::read(s) {
        Ok(h) => print_header(rt, h),
        Err(c) => println!(rt; " answer {} at {}", c.0.number(), c.1),
    }
}

fn main(rt: HostRuntime) -> io::Result<()> {
    each_file(&rt, |name, held| match held {
        Some(stream) => print_stream(&rt, name, stream),
        None => println!(rt; "{name}: longer than 65535 bytes"),
    })
}
