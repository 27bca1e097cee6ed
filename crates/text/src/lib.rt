// The text of a map read, and its cut list printed: the whole of `textmap` between its input and its output.
#![tactic(auto)]

mod lines;
mod mark;
mod print;
mod printer;
pub mod report;
mod scan;

ghost use Rattle.std.specs.Prelude.{◌≡◌, ◌*◌, ◌≤◌, [], ◌∷◌, ◌++◌, length};
ghost use Rattle.calls.specs.Outcome.{map_of};
ghost use Rattle.text.specs.Parse.{parsed};
ghost use Rattle.text.specs.Places.{ParsedIs};
ghost use Rattle.text.specs.Output.{Printed};
ghost use Rattle.text.specs.Program.{message, printed, textmap as textmap_of};

use lattice::Size;
use printer::Printer;
use report::CutList;
use std::error::Error;
use std::fmt;

// Of a map of 16 by 16 pixels, and how many cracks it has at most.
const PIXELS: usize = 16 * 16;

const CORNERS: usize = 17 * 17;

const CRACKS: usize = 2 * 16 * 16 + 16 + 16;

/// Why a text is not read as a map.
#[derive(Clone, Copy, Debug, PartialEq, Eq)]
pub enum BadMap {
    TooBig,
    BadText,
}

impl BadMap {
    fn text(self) -> &'static str
        ensures { result.now ≡ message self }
    {
        match self {
            BadMap::TooBig => "too big",
            BadMap::BadText => "bad text",
        }
    }
}

impl fmt::Display for BadMap {
    fn fmt<W: fmt::Write>(&self, f: &mut fmt::Formatter<W>) -> fmt::Result {
        f.write_str(self.text())
    }
}

impl Error for BadMap {}

// Every list of bytes has one outcome. The labels that were read go to the store from its first word on; those that it has no
// room for are dropped, and no other word changes.
pub fn parse(text: &[u8], labels: &mut [u32]) -> Result<Size, BadMap>
    ensures { ParsedIs (parsed text.now) labels.old labels.new result }
{
    if 4096 < text.len() {
        return Err(BadMap::TooBig);
    }
    let (size, next) = lines::header(text).ok_or(BadMap::BadText)?;
    if 16 < size.width {
        return Err(BadMap::TooBig);
    }
    if 16 < size.height {
        return Err(BadMap::TooBig);
    }
    let last = lines::lines_at(
        text,
        next,
        size.width as usize,
        size.height as usize,
        labels,
    )
    .ok_or(BadMap::BadText)?;
    if last < text.len() {
        return Err(BadMap::BadText);
    }
    Ok(size)
}

// The cut list of a map of 16 by 16 pixels at most: no store is short.
fn print_map(s: Size, labels: &[u32], out: &mut [u8]) -> usize
    requires { (s.width ≤ 16) × (s.height ≤ 16) × (length labels.now ≡ s.width * s.height) }
    ensures { Printed out.old 0 (printed (map_of s labels.now)) out.new result }
{
    let mut work = [0u32; 8 * CORNERS];
    let mut nodes = [0u32; 6 * CORNERS];
    let mut segments = [0u32; 8 * CRACKS];
    let mut points = [0u32; 4 * CRACKS];
    let mut references = [0u32; 2 * CRACKS];
    let mut contours = [0u32; 2 * CORNERS];
    let mut faces = [0u32; 5 * PIXELS];
    let counts = calls::whole(
        s,
        labels,
        &mut work,
        &mut nodes,
        &mut segments,
        &mut points,
        &mut references,
        &mut contours,
        &mut faces,
    )
    .unwrap();
    let list = CutList {
        nodes: &nodes,
        segments: &segments,
        points: &points,
        references: &references,
        contours: &contours,
        faces: &faces,
    };
    list.print_report(out, s, counts)
}

// A line of its own.
fn print_line(text: &str, out: &mut [u8]) -> usize
    ensures { Printed out.old 0 (text.now ++ (10 ∷ [])) out.new result }
{
    let mut printer = Printer::new(out);
    printer.word(text.as_bytes());
    printer.byte(b'\n');
    printer.at
}

// What the program prints for what it reads, into a lent buffer: what has no room there is dropped, and the answer is the number of
// bytes that are printed.
pub fn textmap(input: &[u8], out: &mut [u8]) -> usize
    ensures { Printed out.old 0 (textmap_of input.now) out.new result }
{
    let mut labels = [0u32; PIXELS];
    match parse(input, &mut labels) {
        Ok(s) => {
            let count = (s.width as usize) * (s.height as usize);
            print_map(s, &labels[..count], out)
        }
        Err(bad) => print_line(bad.text(), out),
    }
}
