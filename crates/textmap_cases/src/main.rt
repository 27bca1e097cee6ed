// Runs texts through `textmap`, each with its name before what is printed: the maps worked by hand, odd input, and the limits.
#![tactic(auto)]

use std::io;
use std::io::Write;

// What is printed for a text.
fn shows(rt: &impl Print, name: &str, input: &[u8]) -> io::Result<()> {
    let mut out = [0u8; 65536];
    let n = text::textmap(input, &mut out);
    println!(rt; "-- {name}")?;
    rt.write_all(&out[..n])
}

// MAPS

fn worked(rt: &impl Print) -> io::Result<()> {
    shows(rt, "0 by 0", b"0 0 1\n")?;
    shows(rt, "3 by 0", b"3 0 1\n")?;
    shows(rt, "0 by 3: empty lines", b"0 3 1\n\n\n\n")?;
    shows(rt, "one pixel", b"1 1 1\n0\n")?;
    shows(rt, "one pixel that is not painted", b"1 1 1\n7\n")?;
    shows(rt, "one pixel that is OUTSIDE", b"1 1 1\n.\n")?;
    shows(
        rt,
        "one pixel with the largest label",
        b"1 1 4294967295\n4294967294\n",
    )?;
    shows(rt, "two pixels", b"2 1 2\n0 1\n")?;
    shows(rt, "two patches of one label", b"3 1 2\n0 1 0\n")?;
    shows(rt, "a checkerboard", b"2 2 2\n0 1\n1 0\n")?;
    shows(rt, "a rim around a centre", b"3 3 2\n0 0 0\n0 1 0\n0 0 0\n")?;
    shows(
        rt,
        "a corner touch, and a hole",
        b"4 4 2\n0 . . .\n. 0 0 0\n. 0 1 0\n. 0 0 0\n",
    )?;
    shows(
        rt,
        "a hole with nodes, before its rim",
        b"4 3 3\n0 0 0 0\n0 1 2 0\n0 0 0 0\n",
    )
}

// ODD INPUT

fn odd(rt: &impl Print) -> io::Result<()> {
    shows(rt, "nothing", b"")?;
    shows(rt, "a newline", b"\n")?;
    shows(rt, "no newline at the end", b"2 1 2\n0 1")?;
    shows(rt, "a header without its newline", b"0 0 0")?;
    shows(rt, "lines ended by CR LF", b"2 1 2\r\n0 1\r\n")?;
    shows(rt, "a line too many", b"2 1 2\n0 1\n\n")?;
    shows(rt, "a line too few", b"2 2 2\n0 1\n")?;
    shows(rt, "an entry too many", b"2 1 2\n0 1 1\n")?;
    shows(rt, "an entry too few", b"2 1 2\n0\n")?;
    shows(rt, "a leading zero in the header", b"02 1 2\n0 1\n")?;
    shows(rt, "a leading zero in a label", b"2 1 2\n00 1\n")?;
    shows(rt, "two spaces", b"2 1 2\n0  1\n")?;
    shows(rt, "a space at the start", b"2 1 2\n 0 1\n")?;
    shows(rt, "a space at the end", b"2 1 2\n0 1 \n")?;
    shows(rt, "a tab", b"2 1 2\n0\t1\n")?;
    shows(rt, "a minus", b"2 1 2\n0 -1\n")?;
    shows(rt, "a NUL for a label", b"1 1 1\n\x00\n")?;
    shows(rt, "a NUL at the end", b"1 1 1\n0\n\x00")?;
    shows(rt, "a dot in the header", b"1 1 .\n0\n")?;
    shows(rt, "two dots", b"1 1 1\n..\n")?;
    shows(rt, "a map of width 0 without its lines", b"0 3 1\n")
}

// LIMITS

fn numbers(rt: &impl Print) -> io::Result<()> {
    shows(rt, "4294967295 paints", b"1 1 4294967295\n.\n")?;
    shows(rt, "4294967296 paints", b"1 1 4294967296\n.\n")?;
    shows(rt, "the label 4294967294", b"1 1 0\n4294967294\n")?;
    shows(rt, "the label 4294967295", b"1 1 0\n4294967295\n")?;
    shows(rt, "the label 4294967296", b"1 1 0\n4294967296\n")?;
    shows(
        rt,
        "the label 18446744073709551616",
        b"1 1 0\n18446744073709551616\n",
    )
}

fn sides(rt: &impl Print) -> io::Result<()> {
    shows(
        rt,
        "17 columns",
        b"17 1 1\n0 0 0 0 0 0 0 0 0 0 0 0 0 0 0 0 0\n",
    )?;
    shows(
        rt,
        "17 entries for 16 columns",
        b"16 1 1\n0 0 0 0 0 0 0 0 0 0 0 0 0 0 0 0 0\n",
    )?;
    shows(
        rt,
        "16 columns",
        b"16 1 1\n0 0 0 0 0 0 0 0 0 0 0 0 0 0 0 0\n",
    )?;
    shows(rt, "17 lines, and none of them there", b"1 17 1\n")?;
    shows(rt, "4294967295 columns", b"4294967295 1 1\n")?;
    shows(rt, "4294967296 columns", b"4294967296 1 1\n")?;
    shows(
        rt,
        "17 columns in a header that is not readable",
        b"17 1 01\n",
    )
}

// A map of one pixel, and newlines behind it.
fn lengths(rt: &impl Print) -> io::Result<()> {
    let mut text = [b'\n'; 4097];
    text[..7].copy_from_slice(b"1 1 1\n0");
    shows(rt, "8 bytes", &text[..8])?;
    shows(rt, "4096 bytes", &text[..4096])?;
    shows(rt, "4097 bytes", &text)
}

// The longest text that is a map: entries of ten digits, no two alike.
fn longest(rt: &impl Print) -> io::Result<()> {
    let mut text = [0; 2833];
    let mut rest = &mut text[..];
    writeln!(rest, "16 16 4000000000")?;
    for i in 0..256 {
        let behind = if i % 16 == 15 { '\n' } else { ' ' };
        write!(rest, "3{i:09}{behind}")?;
    }
    let mut out = [0u8; 65536];
    let n = text::textmap(&text, &mut out);
    println!(rt; "-- 16 by 16 pixels, no two alike\n{n} bytes")
}

fn main(rt: HostRuntime) -> io::Result<()> {
    worked(&rt)?;
    odd(&rt)?;
    numbers(&rt)?;
    sides(&rt)?;
    lengths(&rt)?;
    longest(&rt)
}
