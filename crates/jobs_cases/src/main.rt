// Writes the map of two pixels as a job file, refused and then in full, a record to a line; and salvages that file whole, cut and damaged.
#![tactic(auto)]

use std::io;

// A line of bytes in hexadecimal.
fn bytes(rt: &impl Print, bytes: &[u8]) -> io::Result<()> {
    for byte in bytes {
        print!(rt; " {byte:02x}")?;
    }
    println!(rt)
}

// WRITTEN

// The map `0 1` with a paint count, and what is lent for references and the file: what is answered.
fn writes(
    rt: &impl Print,
    name: &str,
    paints: u32,
    references: &mut [u32],
    file: &mut [u8],
) -> io::Result<()> {
    let written = jobwrite::write(
        2,
        1,
        paints,
        &[0, 1],
        &mut [7; 48],
        &mut [7; 12],
        &mut [7; 24],
        &mut [7; 20],
        references,
        &mut [7; 4],
        &mut [7; 10],
        file,
    );
    let (number, length) = match written {
        Ok(written) => (0, written.length),
        Err(refused) => (refused.why.number(), 0),
    };
    println!(rt; "{name}: {number} {length}")
}

fn refused(rt: &impl Print) -> io::Result<()> {
    let mut short = [255; 183];
    writes(
        rt,
        "three references and too many paints",
        65536,
        &mut [7; 3],
        &mut short,
    )?;
    writes(
        rt,
        "too many paints, and a short store",
        65536,
        &mut [7; 4],
        &mut short,
    )?;
    writes(rt, "a store of 183 bytes", 2, &mut [7; 4], &mut short)?;
    bytes(rt, &short[..6])
}

fn written(rt: &impl Print, file: &mut [u8; 186]) -> io::Result<()> {
    writes(rt, "a store of 186 bytes", 2, &mut [7; 4], file)?;
    bytes(rt, &file[..18])?;
    bytes(rt, &file[18..56])?;
    bytes(rt, &file[56..78])?;
    bytes(rt, &file[78..116])?;
    bytes(rt, &file[116..150])?;
    bytes(rt, &file[150..184])?;
    bytes(rt, &file[184..])
}

// SALVAGED

fn salvages(rt: &impl Print, name: &str, file: &[u8], out: &mut [u8]) -> io::Result<()> {
    let (number, length, kind) = match jobs::salvage::salvage(file, out) {
        Ok(kept) => (0, kept.length, kept.kind),
        Err(why) => (why.number(), 0, 0),
    };
    println!(rt; "{name}: {number} {length} {kind}")
}

fn cut(rt: &impl Print, file: &[u8; 186]) -> io::Result<()> {
    let mut out = [255; 184];
    let mut short = [255; 183];
    let whole = "whole, number, length and kind";
    salvages(rt, whole, &file[..184], &mut out)?;
    salvages(rt, "a store of 183 bytes", &file[..184], &mut short)?;
    bytes(rt, &short[..6])?;
    salvages(rt, "cut at 183", &file[..183], &mut out)?;
    salvages(rt, "cut at 22", &file[..22], &mut out)?;
    salvages(rt, "cut at 17", &file[..17], &mut out)
}

fn damaged(rt: &impl Print, file: &mut [u8; 186]) -> io::Result<()> {
    let mut out = [255; 184];
    file[154] = 2;
    salvages(rt, "a segment behind a face", &file[..184], &mut out)?;
    file[154] = 3;
    file[183] = 1;
    salvages(rt, "a segment that is not there", &file[..184], &mut out)?;
    file[62] = 2;
    salvages(rt, "two points a diagonal apart", &file[..184], &mut out)?;
    bytes(rt, &out[..18])
}

fn main(rt: HostRuntime) -> io::Result<()> {
    refused(&rt)?;
    let mut file = [255; 186];
    written(&rt, &mut file)?;
    cut(&rt, &file)?;
    damaged(&rt, &mut file)
}
