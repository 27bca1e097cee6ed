// Assembles two graphs of another writer, renumbered and reversed, and each once more with a wrong word: prints the numbers and the stores of faces.
#![tactic(auto)]

use lattice::{NONE, OUTSIDE, Size};
use std::io;

// A title, and the words after it.
fn say(rt: &impl Print, title: &str, words: &[u32]) -> io::Result<()> {
    print!(rt; "{title:<10}")?;
    for word in words {
        print!(rt; " {word}")?;
    }
    println!(rt)
}

// How many records a store holds.
fn count<T>(records: &[T]) -> u32 {
    u32::try_from(records.len()).unwrap_or(u32::MAX)
}

// A row of pixels, each with a paint of its own, and a graph for it.
#[derive(Drop)]
struct Given<'a> {
    width: u32,
    labels: &'a [u32],
    nodes: &'a [[u32; 6]],
    segments: &'a [[u32; 8]],
    points: &'a [[u32; 2]],
}

impl Given<'_> {
    // Its faces, over stores whose words are all 9, with a record or so to spare.
    fn assemble(&self, rt: &impl Print, work: &mut [u32]) -> io::Result<()> {
        let s = Size {
            width: self.width,
            height: 1,
            paints: self.width,
            bound: OUTSIDE,
        };
        let mut references = [9; 5];
        let mut contours = [9; 5];
        let mut faces = [9; 12];
        let answer = workbench::assemble(
            s,
            self.labels,
            work,
            self.nodes.as_flattened(),
            count(self.nodes),
            self.segments.as_flattened(),
            count(self.segments),
            self.points.as_flattened(),
            &mut references,
            &mut contours,
            &mut faces,
        );
        say(rt, "answer", &calls::words(answer))?;
        say(rt, "references", &references)?;
        say(rt, "contours", &contours)?;
        say(rt, "faces", &faces)
    }
}

// Two pixels: the nodes the other way round, the line between them first and northward, the way round the right one last and back.
// The first node's out entry to the west is given.
fn two_pixels(rt: &impl Print, west: u32) -> io::Result<()> {
    let given = Given {
        width: 2,
        labels: &[0, 1],
        nodes: &[[1, 1, 0, 4, NONE, west], [1, 0, NONE, 5, 1, 2]],
        segments: &[
            [0, 2, 0, 1, 0, 1, 0, 0],
            [2, 4, 1, 0, 0, OUTSIDE, 3, 1],
            [6, 4, 0, 1, 1, OUTSIDE, 1, 3],
        ],
        points: &[
            [1, 1],
            [1, 0],
            [1, 0],
            [0, 0],
            [0, 1],
            [1, 1],
            [1, 1],
            [2, 1],
            [2, 0],
            [1, 0],
        ],
    };
    given.assemble(rt, &mut [7; 48])
}

// One pixel: its ring from another corner and the other way. Its last direction is given.
fn one_pixel(rt: &impl Print, last: u32) -> io::Result<()> {
    let given = Given {
        width: 1,
        labels: &[0],
        nodes: &[],
        segments: &[[0, 5, NONE, NONE, 0, OUTSIDE, 0, last]],
        points: &[[1, 1], [1, 0], [0, 0], [0, 1], [1, 1]],
    };
    given.assemble(rt, &mut [7; 32])
}

fn main(rt: HostRuntime) -> io::Result<()> {
    println!(rt; "two pixels")?;
    two_pixels(&rt, 3)?;
    println!(rt; "an out entry missing")?;
    two_pixels(&rt, NONE)?;
    println!(rt; "one pixel")?;
    one_pixel(&rt, 0)?;
    println!(rt; "a ring with a last direction")?;
    one_pixel(&rt, 1)
}
