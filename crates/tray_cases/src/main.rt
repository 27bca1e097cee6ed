// Forty small maps by single calls, map after map, and then in one tray over stores of its own: prints the forty numbers, what a tray answers with an
// answer word too few, and how many words of each store differ.
#![tactic(auto)]

use calls::{Counts, Refused};
use lattice::{OUTSIDE, Size};
use std::io;

// MAPS

// Maps with sides of 1 to 4 and 0 to 2 pixels, and 0 to 4 paints, and three others.
fn map(i: u8) -> [u32; 3] {
    let n = u32::from(i);
    match i {
        // too wide
        7 => [16385, 0, 2],
        // too large for the work store
        13 => [9, 1, 3],
        // past the label store, as the one before it
        39 => [4, 1, 4],
        _ => [1 + n % 4, n % 3, n % 5],
    }
}

fn label(i: u8) -> u32 {
    let n = u32::from(i);
    match (5 * n + n / 3) % 7 {
        6 => OUTSIDE,
        k => k / 2,
    }
}

// SINGLE CALLS

// What is left of each store for the maps to come.
#[derive(Drop)]
struct Left<'a> {
    labels: &'a [u32],
    nodes: &'a mut [u32],
    segments: &'a mut [u32],
    points: &'a mut [u32],
    references: &'a mut [u32],
    contours: &'a mut [u32],
    faces: &'a mut [u32],
}

impl Left<'_> {
    // The next map by a call on its own labels, which takes them and what it writes.
    fn single(&mut self, s: Size, work: &mut [u32]) -> Result<Counts, Refused> {
        let pixels = tray::pixels(s).min(self.labels.len());
        let (labels, others) = self.labels.split_at(pixels);
        self.labels = others;
        let answer = calls::whole(
            s,
            labels,
            work,
            self.nodes,
            self.segments,
            self.points,
            self.references,
            self.contours,
            self.faces,
        );
        if let Ok(c) = answer {
            let _ = self.nodes.split_off_mut(..6 * c.nodes as usize);
            let _ = self.segments.split_off_mut(..8 * c.segments as usize);
            let _ = self.points.split_off_mut(..2 * c.points as usize);
            let _ = self.references.split_off_mut(..c.references as usize);
            let _ = self.contours.split_off_mut(..2 * c.contours as usize);
            let _ = self.faces.split_off_mut(..5 * c.faces as usize);
        }
        answer
    }
}

// STORES

// The stores of forty maps.
#[derive(Drop)]
struct Stores {
    work: [u32; 150],
    nodes: [u32; 600],
    segments: [u32; 1200],
    points: [u32; 300],
    references: [u32; 200],
    contours: [u32; 150],
    faces: [u32; 250],
}

// How many words of a store are others than those of another.
fn differ(xs: &[u32], ys: &[u32]) -> usize {
    xs.iter().zip(ys).filter(|(x, y)| **x != **y).count()
}

impl Stores {
    fn new() -> Stores {
        Stores {
            work: [9; 150],
            nodes: [9; 600],
            segments: [9; 1200],
            points: [9; 300],
            references: [9; 200],
            contours: [9; 150],
            faces: [9; 250],
        }
    }

    // Map after map by single calls, and the number of each.
    fn one_by_one(
        &mut self,
        rt: &impl Print,
        maps: &[u32],
        labels: &[u32],
        answers: &mut [u32],
    ) -> io::Result<()> {
        let mut left = Left {
            labels,
            nodes: &mut self.nodes,
            segments: &mut self.segments,
            points: &mut self.points,
            references: &mut self.references,
            contours: &mut self.contours,
            faces: &mut self.faces,
        };
        let (maps, _) = maps.as_chunks::<3>();
        let (answers, _) = answers.as_chunks_mut::<8>();
        for ([width, height, paints], answer) in maps.iter().zip(answers) {
            let s = calls::sized(1, *width, *height, *paints);
            *answer = calls::words(left.single(s, &mut self.work));
            print!(rt; " {}", answer[0])?;
        }
        println!(rt)
    }

    // The maps in one tray, and its number.
    fn tray(&mut self, maps: &[u32], labels: &[u32], answers: &mut [u32]) -> u32 {
        let laid = tray::tray(
            1,
            maps,
            labels,
            &mut self.work,
            &mut self.nodes,
            &mut self.segments,
            &mut self.points,
            &mut self.references,
            &mut self.contours,
            &mut self.faces,
            answers,
        );
        match laid {
            Ok(()) => 0,
            Err(why) => why.number(),
        }
    }

    // How many words of each store differ.
    fn differences(&self, other: &Stores) -> [usize; 7] {
        [
            differ(&self.work, &other.work),
            differ(&self.nodes, &other.nodes),
            differ(&self.segments, &other.segments),
            differ(&self.points, &other.points),
            differ(&self.references, &other.references),
            differ(&self.contours, &other.contours),
            differ(&self.faces, &other.faces),
        ]
    }
}

// The tray with an answer word too few, and a work store beside stores that hold nothing.
fn refused(rt: &impl Print, maps: &[u32], labels: &[u32]) -> io::Result<()> {
    let mut work = [9; 150];
    let mut answers = [9; 319];
    let laid = tray::tray(
        1,
        maps,
        labels,
        &mut work,
        &mut [0; 0],
        &mut [0; 0],
        &mut [0; 0],
        &mut [0; 0],
        &mut [0; 0],
        &mut [0; 0],
        &mut answers,
    );
    let number = match laid {
        Ok(()) => 0,
        Err(why) => why.number(),
    };
    let words = differ(&work, &[9; 150]);
    println!(rt;
        "319 answer words: {number} {words} {}",
        differ(&answers, &[9; 319])
    )
}

fn main(rt: HostRuntime) -> io::Result<()> {
    // two words that are no map's
    let mut maps = [9; 122];
    let (words, _) = maps.as_chunks_mut::<3>();
    for (word, i) in words.iter_mut().zip(0..40) {
        *word = map(i);
    }
    let mut labels = [0; 97];
    for (word, i) in labels.iter_mut().zip(0..97) {
        *word = label(i);
    }

    let mut single = Stores::new();
    let mut answers = [9; 325];
    single.one_by_one(&rt, &maps, &labels, &mut answers)?;

    refused(&rt, &maps, &labels)?;

    let mut together = Stores::new();
    let mut tray_answers = [9; 325];
    let number = together.tray(&maps, &labels, &mut tray_answers);
    let words = differ(&tray_answers, &answers);
    print!(rt; "a tray: {number}\nwords that differ: {words}")?;
    for words in together.differences(&single) {
        print!(rt; " {words}")?;
    }
    println!(rt)
}
