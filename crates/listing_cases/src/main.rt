// One panel of two benches, its listing for bench A after each change: relabelled by bench B, with a pixel of A's own moved, and refused.
#![tactic(auto)]

use lattice::{OUTSIDE, Size};
use std::io;

// Four columns and three rows of labels: bench A cuts 1 and 2, and bench B the others.
const PANEL: [u32; 12] = [0, 1, 1, 3, 0, 0, 1, 2, 3, 3, 2, 2];

fn line(rt: &impl Print, words: &[u32]) -> io::Result<()> {
    for word in words {
        print!(rt; " {word}")?;
    }
    println!(rt)
}

// What the call says of a panel with 5 paints, and the words of the listing.
fn shows(
    rt: &impl Print,
    name: &str,
    bound: u32,
    labels: &[u32],
    named: &[u32],
    store: &mut [u32],
) -> io::Result<()> {
    let size = Size {
        width: 4,
        height: 3,
        paints: 5,
        bound,
    };
    let (number, length) = match listing::listing(size, labels, &mut [7; 160], named, store) {
        Ok(length) => (0, length),
        Err(why) => (why.number(), 0),
    };
    print!(rt; "-- {name}\nnumber {number}, length {length}:")?;
    let n = store.len().min(length as usize);
    line(rt, &store[..n])
}

// The listing of the labels 1 and 2 in a store with room for any panel of these sides.
fn bench_a(rt: &impl Print, name: &str, labels: &[u32; 12]) -> io::Result<()> {
    shows(rt, name, OUTSIDE, labels, &[1, 2], &mut [9; 300])
}

fn benches(rt: &impl Print) -> io::Result<()> {
    let swapped = [3, 1, 1, 0, 3, 3, 1, 2, 0, 0, 2, 2];
    let one_label = [4, 1, 1, 9, 4, 4, 1, 2, 4, OUTSIDE, 2, 2];
    let moved = [0, 0, 1, 3, 0, 0, 1, 2, 3, 3, 2, 2];
    bench_a(rt, "the panel", &PANEL)?;
    bench_a(rt, "bench B swaps its labels 0 and 3", &swapped)?;
    bench_a(
        rt,
        "bench B makes one label of both, and some of it waste",
        &one_label,
    )?;
    bench_a(rt, "a pixel of bench A moves to bench B", &moved)
}

// The panel's listing of other names.
fn named(rt: &impl Print, name: &str, bound: u32, names: &[u32]) -> io::Result<()> {
    shows(rt, name, bound, &PANEL, names, &mut [9; 300])
}

fn names(rt: &impl Print) -> io::Result<()> {
    named(
        rt,
        "named twice, in another order, with labels that are not painted",
        OUTSIDE,
        &[2, 1, 7, 2, OUTSIDE],
    )?;
    named(rt, "where no cut goes through waste", 5, &[1, 2])?;
    named(rt, "nothing named", OUTSIDE, &[])
}

fn refusals(rt: &impl Print) -> io::Result<()> {
    let few = &PANEL[..11];
    let mut store = [9; 300];
    let mut short = [9; 53];
    shows(
        rt,
        "a store too short",
        OUTSIDE,
        &PANEL,
        &[1, 2],
        &mut short,
    )?;
    line(rt, &short)?;
    shows(rt, "a label too few", OUTSIDE, few, &[1, 2], &mut store)
}

fn main(rt: HostRuntime) -> io::Result<()> {
    benches(&rt)?;
    names(&rt)?;
    refusals(&rt)
}
