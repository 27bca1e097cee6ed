// Flattens layers over a canvas of 3 by 2 whose labels are all 7 before, and prints the number and the labels, a line for each case.
#![tactic(auto)]

use std::{fmt, io};

// The largest word, which also stands for -1.
const MOST: u32 = u32::MAX;

// A label, or a dot where no layer covers the pixel.
#[derive(Drop)]
struct Label(u32);

impl fmt::Display for Label {
    fn fmt<W: fmt::Write>(&self, f: &mut fmt::Formatter<W>) -> fmt::Result {
        match self.0 {
            MOST => write!(f, "."),
            label => write!(f, "{label}"),
        }
    }
}

// The words of the layers, on a canvas that is said to have this width.
fn canvas(rt: &impl Print, name: &str, width: u32, words: &[u32], masks: &[u8]) -> io::Result<()> {
    let mut labels = [7; 6];
    let number = match layers::flatten(width, 2, words, masks, &mut labels) {
        Ok(()) => 0,
        Err(why) => why.number(),
    };
    print!(rt; "{name:<28}{number}:")?;
    for label in labels {
        print!(rt; " {}", Label(label))?;
    }
    println!(rt)
}

// Layers of four words: x, y, width and height.
fn case(rt: &impl Print, name: &str, layers: &[[u32; 4]], masks: &[u8]) -> io::Result<()> {
    canvas(rt, name, 3, layers.as_flattened(), masks)
}

fn flat(rt: &impl Print) -> io::Result<()> {
    let all = [0, 0, 3, 2];
    let two = [[0, 0, 2, 1], [1, 0, 2, 1]];
    let apart = [[0, 0, 1, 1], [0, 0, 0, 9], [2, 1, 1, 1]];
    case(rt, "no layers", &[], &[])?;
    case(rt, "one over all", &[all], &[1; 6])?;
    case(rt, "its first pixel alone", &[all], &[1, 0, 0, 0, 0, 0])?;
    case(rt, "the last one wins", &two, &[1; 4])?;
    case(rt, "a 0 lets the lower through", &two, &[1, 1, 0, 1])?;
    case(rt, "an empty one between", &apart, &[1; 2])?;
    case(rt, "x = -1, y = -1", &[[MOST, MOST, 2, 2]], &[0, 0, 0, 1])?;
    case(
        rt,
        "x = 2, y = 1, sticking out",
        &[[2, 1, 2, 2]],
        &[1, 0, 0, 0],
    )?;
    case(rt, "x = 2147483647", &[[MOST >> 1, 0, 2, 1]], &[1; 2])?;
    case(rt, "x = -2147483648", &[[1 << 31, 0, 2, 1]], &[1; 2])?;
    case(rt, "no column, 4294967295 rows", &[[0, 0, 0, MOST]], &[])
}

fn refused(rt: &impl Print) -> io::Result<()> {
    let pair = [0, 0, 2, 1];
    canvas(rt, "a side too long", 16385, &[0], &[2])?;
    canvas(rt, "another canvas", 2, &[0, 0, 1, 1], &[1])?;
    canvas(rt, "an unfinished layer", 3, &[0, 0, 1, 1, 0], &[1])?;
    case(rt, "a mask byte too few", &[pair], &[1])?;
    case(rt, "a mask byte too many", &[pair], &[1; 3])?;
    case(rt, "a byte of 2", &[pair], &[1, 2])?;
    let wrapping = [[0, 0, MOST, MOST], [0, 0, 2, MOST], pair];
    case(rt, "masks that wrap to 1 byte", &wrapping, &[1])
}

fn main(rt: HostRuntime) -> io::Result<()> {
    flat(&rt)?;
    refused(&rt)
}
