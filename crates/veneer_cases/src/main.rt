// Measures maps worked by hand, and prints for each the number, the count of faces and every number of the store, `old` where it was left alone.
#![tactic(auto)]

use lattice::{OUTSIDE, Size};
use std::io;

// What a store holds before a call: a number that no sum is.
const OLD: i64 = -7;

// A map, with these sums lent.
fn row(rt: &impl Print, name: &str, s: Size, labels: &[u32], sums: &mut [i64]) -> io::Result<()> {
    let answer = veneer::veneer(s, labels, &mut [5; 200], sums);
    let [number, _, _, _, _, _, faces, _] = calls::words(answer);
    print!(rt; "{name:<24}{number}, faces {faces}, sums")?;
    for sum in sums.iter() {
        match *sum {
            OLD => print!(rt; " old")?,
            _ => print!(rt; " {sum}")?,
        }
    }
    println!(rt)
}

// A map by its rows, with four sums lent.
fn map<const W: usize>(rt: &impl Print, name: &str, s: Size, rows: &[[u32; W]]) -> io::Result<()> {
    row(rt, name, s, rows.as_flattened(), &mut [OLD; 4])
}

// A map that is read as it is.
fn plain(width: u32, height: u32, paints: u32) -> Size {
    Size {
        width,
        height,
        paints,
        bound: OUTSIDE,
    }
}

fn pieces(rt: &impl Print) -> io::Result<()> {
    map(rt, "one pixel", plain(1, 1, 1), &[[0]])?;
    map(rt, "one pixel, not painted", plain(1, 1, 1), &[[7]])?;
    map(rt, "three pieces", plain(3, 1, 2), &[[0, 1, 0]])?;
    map(rt, "a checkerboard", plain(2, 2, 2), &[[0, 1], [1, 0]])
}

fn holes(rt: &impl Print) -> io::Result<()> {
    let ring = [[0, 0, 0], [0, 1, 0], [0, 0, 0]];
    let waste = [[0, 0, 0], [0, 7, 0], [0, 0, 0]];
    let panel = [[0, 0, 0, 0], [0, 1, 2, 0], [0, 0, 0, 0]];
    let corner = [
        [0, OUTSIDE, OUTSIDE, OUTSIDE],
        [OUTSIDE, 0, 0, 0],
        [OUTSIDE, 0, 1, 0],
        [OUTSIDE, 0, 0, 0],
    ];
    map(rt, "a hole with a piece", plain(3, 3, 2), &ring)?;
    map(rt, "a hole with scrap", plain(3, 3, 2), &waste)?;
    map(rt, "one hole for two", plain(4, 3, 3), &panel)?;
    map(rt, "joined at a corner", plain(4, 4, 2), &corner)
}

// Faces stand by region and then by island: the first piece on the map is the last face.
fn order(rt: &impl Print) -> io::Result<()> {
    let touching = [[2, 2, 1], [0, 0, 0]];
    let apart = [[1, 1, 0], [0, 0, 0], [1, 0, 0]];
    map(rt, "in face order", plain(3, 2, 3), &touching)?;
    map(rt, "equal labels apart", plain(3, 3, 2), &apart)
}

// Two unpainted labels side by side, and no cut between them: the sums are the same.
fn modes(rt: &impl Print) -> io::Result<()> {
    let rows = [[0, 8], [9, 0]];
    let through = plain(2, 2, 1);
    let around = Size {
        bound: 1,
        ..through
    };
    map(rt, "through waste", through, &rows)?;
    map(rt, "no cuts through waste", around, &rows)
}

// The sums are left alone.
fn refusals(rt: &impl Print) -> io::Result<()> {
    let mut two = [OLD; 2];
    row(rt, "a side too long", plain(16385, 0, 1), &[], &mut two)?;
    row(rt, "a label too few", plain(2, 1, 2), &[0], &mut two)?;
    row(
        rt,
        "a work store too short",
        plain(5, 4, 1),
        &[0; 20],
        &mut two,
    )?;
    row(
        rt,
        "three pieces, two sums",
        plain(3, 1, 2),
        &[0, 1, 0],
        &mut two,
    )?;
    row(rt, "one pixel, no sum", plain(1, 1, 1), &[0], &mut [])?;
    row(rt, "no piece, no sum", plain(0, 0, 1), &[], &mut [])
}

fn main(rt: HostRuntime) -> io::Result<()> {
    pieces(&rt)?;
    holes(&rt)?;
    order(&rt)?;
    modes(&rt)?;
    refusals(&rt)
}
