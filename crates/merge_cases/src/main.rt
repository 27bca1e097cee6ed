// Runs the merge on small maps, with odd stores too, and prints what each call leaves: the answer, the labels, the colours, and how many
// words of the work and region stores are not 0.
#![tactic(auto)]

ghost use Rattle.std.specs.Prelude.{◌≤◌};

use lattice::{OUTSIDE, Size};
use std::{fmt, io};

// A label, or a dot for OUTSIDE.
#[derive(Drop)]
struct Label(u32);

impl fmt::Display for Label {
    fn fmt<W: fmt::Write>(&self, f: &mut fmt::Formatter<W>) -> fmt::Result {
        match self.0 {
            OUTSIDE => write!(f, "."),
            label => write!(f, "{label}"),
        }
    }
}

// What is lent to a call.
struct Stores<'a> {
    labels: &'a mut [u32],
    colours: &'a mut [u8],
    work: &'a mut [u32],
    regions: &'a mut [u32],
}

fn not_zero(words: &[u32]) -> usize {
    words.iter().filter(|word| **word != 0).count()
}

impl Stores<'_> {
    // A call, and what it leaves.
    fn merge(self, rt: &impl Print, name: &str, s: Size, limit: i32) -> io::Result<()> {
        let Stores {
            labels,
            colours,
            work,
            regions,
        } = self;
        let (number, paints) = match merge::merge(s, limit, labels, colours, work, regions) {
            Ok(paints) => (0, paints),
            Err(why) => (why.number(), 0),
        };
        print!(rt; "{name:<25} {number} {paints} |")?;
        for label in labels.iter() {
            print!(rt; " {}", Label(*label))?;
        }
        print!(rt; " |")?;
        for colour in colours.iter() {
            print!(rt; " {colour}")?;
        }
        println!(rt; " | {} {}", not_zero(work), not_zero(regions))
    }
}

fn size(width: u32, height: u32, paints: u32) -> Size {
    Size {
        width,
        height,
        paints,
        bound: OUTSIDE,
    }
}

// Three pixels in a row, of three greys, each with three paints and a word more than is needed of each store.
fn greys(rt: &impl Print, name: &str, limit: i32, greys: [u8; 3]) -> io::Result<()> {
    let mut colours = greys.map(|grey| [grey; 3]);
    let stores = Stores {
        labels: &mut [0, 1, 2],
        colours: colours.as_flattened_mut(),
        work: &mut [7; 65],
        regions: &mut [7; 37],
    };
    stores.merge(rt, name, size(3, 1, 3), limit)
}

fn merged(rt: &impl Print) -> io::Result<()> {
    greys(rt, "all far apart", 2, [0, 1, 2])?;
    greys(rt, "just within the limit", 6, [0, 2, 9])?;
    greys(rt, "nearest first", 12, [0, 4, 6])?;
    greys(rt, "the later pair alone", 0, [5, 9, 9])?;
    greys(rt, "all equal", 0, [8, 8, 8])?;
    greys(rt, "the largest limit", i32::MAX, [0, 255, 0])?;
    greys(rt, "rounded down", 765, [0, 0, 254])?;
    greys(rt, "no limit", -1, [8, 8, 8])
}

// Four pixels in a square, and five paints.
fn square(rt: &impl Print, name: &str, limit: i32, labels: [u32; 4]) -> io::Result<()> {
    let mut labels = labels;
    let stores = Stores {
        labels: &mut labels,
        colours: &mut [10, 20, 30, 10, 20, 30, 9, 9, 9, 9, 9, 9, 12, 22, 33],
        work: &mut [7; 72],
        regions: &mut [7; 60],
    };
    stores.merge(rt, name, size(2, 2, 5), limit)
}

fn squares(rt: &impl Print) -> io::Result<()> {
    square(rt, "by first pixel", 7, [4, 4, 1, 1])?;
    square(rt, "a corner does not touch", 765, [0, OUTSIDE, OUTSIDE, 1])?;
    square(rt, "nothing but OUTSIDE", 0, [OUTSIDE; 4])
}

// Two pixels of two paints with equal colours, and so many bytes and words lent.
fn lacks(
    rt: &impl Print,
    name: &str,
    s: Size,
    first: u32,
    limit: i32,
    colours: usize,
    work: usize,
    regions: usize,
) -> io::Result<()>
    requires colours { colours ≤ 7 }
    requires work { work ≤ 48 }
    requires regions { regions ≤ 24 }
{
    let stores = Stores {
        labels: &mut [first, 1],
        colours: &mut [3; 7][..colours],
        work: &mut [7; 48][..work],
        regions: &mut [7; 24][..regions],
    };
    stores.merge(rt, name, s, limit)
}

fn refused(rt: &impl Print) -> io::Result<()> {
    let pair = size(2, 1, 2);
    lacks(rt, "a long side", size(16385, 1, 2), 2, 0, 5, 0, 0)?;
    lacks(rt, "another label count", size(2, 2, 2), 2, 0, 5, 0, 0)?;
    lacks(rt, "an unpainted label", pair, 2, 0, 5, 0, 0)?;
    lacks(rt, "the same without a merge", pair, 2, -1, 5, 48, 0)?;
    lacks(rt, "and with one paint", size(2, 1, 1), 2, 0, 5, 48, 0)?;
    lacks(rt, "a short work store", pair, 0, 0, 5, 47, 0)?;
    lacks(rt, "a byte too few", pair, 0, 0, 5, 48, 24)?;
    lacks(rt, "a byte too many", pair, 0, 0, 7, 48, 24)?;
    lacks(rt, "a short region store", pair, 0, 0, 6, 48, 23)?;
    lacks(rt, "nothing lacks", pair, 0, 0, 6, 48, 24)
}

fn main(rt: HostRuntime) -> io::Result<()> {
    merged(&rt)?;
    squares(&rt)?;
    refused(&rt)
}
