// Runs the segment reader on plain and odd parts of a point store, and prints what six calls say, a row for each part.
#![tactic(auto)]

use Way::{Forward, Reversed};
use reader::Corner;
use rules::Refusal;
use std::{fmt, io};

// Which way a segment is read.
#[derive(Clone, Copy)]
enum Way {
    Forward,
    Reversed,
}

impl fmt::Display for Way {
    fn fmt<W: fmt::Write>(&self, f: &mut fmt::Formatter<W>) -> fmt::Result {
        f.pad(match self {
            Forward => "forward",
            Reversed => "reversed",
        })
    }
}

// What a call said.
#[derive(Drop)]
struct Said(Result<Option<Corner>, Refusal>);

impl fmt::Display for Said {
    fn fmt<W: fmt::Write>(&self, f: &mut fmt::Formatter<W>) -> fmt::Result {
        match self.0 {
            Ok(Some(Corner { x, y })) => write!(f, "{x},{y}"),
            Ok(None) => write!(f, "end"),
            Err(why) => write!(f, "{}", why.number()),
        }
    }
}

fn heading(rt: &impl Print) -> io::Result<()> {
    println!(rt;
        "{:24}{:>11}{:>11}{:>11}  way       six calls",
        "", "first", "count", "place"
    )
}

// Six calls on the part that starts at the point `first` and has `count` points, the first of them at the given place.
fn row(
    rt: &impl Print,
    name: &str,
    points: &[u32],
    first: u32,
    count: u32,
    way: Way,
    place: u32,
) -> io::Result<()> {
    print!(rt; "{name:<24}{first:>11}{count:>11}{place:>11}  {way:<9}")?;
    let reversed = matches!(way, Reversed);
    let mut place = place;
    for _ in 0..6 {
        let step = reader::read_at(points, first, count, reversed, place);
        print!(rt; " {}", Said(step.corner))?;
        place = step.place;
    }
    println!(rt)
}

fn even(rt: &impl Print) -> io::Result<()> {
    let p = [1, 0, 2, 0, 2, 1, 1, 1, 1, 0, 1, 1];
    let most = u32::MAX;
    println!(rt; "12 words, 6 points")?;
    heading(rt)?;
    row(rt, "a segment", &p, 0, 4, Forward, 0)?;
    row(rt, "the same", &p, 0, 4, Reversed, 0)?;
    row(rt, "from its third corner", &p, 0, 4, Forward, 2)?;
    row(rt, "the same", &p, 0, 4, Reversed, 2)?;
    row(rt, "long after its end", &p, 0, 4, Forward, most)?;
    row(rt, "to the last point", &p, 4, 2, Forward, 0)?;
    row(rt, "one point too many", &p, 5, 2, Forward, 0)?;
    row(rt, "no points", &p, 2, 0, Forward, 0)?;
    row(rt, "none, at the end", &p, 6, 0, Reversed, 0)?;
    row(rt, "none, past the end", &p, 7, 0, Forward, 0)?;
    row(rt, "a sum of 2^32", &p, most, 1, Forward, 0)?;
    row(rt, "a sum of 2^32 + 2", &p, most - 5, 8, Reversed, 0)?;
    row(rt, "the largest numbers", &p, most, most, Reversed, most)
}

fn odd(rt: &impl Print) -> io::Result<()> {
    let p = [1, 0, 2, 0, 2, 1, 9];
    println!(rt; "\n7 words, 3 points and a word over")?;
    heading(rt)?;
    row(rt, "to the last whole point", &p, 0, 3, Forward, 0)?;
    row(rt, "the same", &p, 0, 3, Reversed, 0)?;
    row(rt, "into the word over", &p, 0, 4, Reversed, 0)?;
    row(rt, "the word over", &p, 3, 1, Forward, 0)?;
    row(rt, "none, at the end", &p, 3, 0, Forward, 0)?;
    row(rt, "none, past the end", &p, 4, 0, Forward, 0)
}

fn none(rt: &impl Print) -> io::Result<()> {
    println!(rt; "\nan empty store")?;
    heading(rt)?;
    row(rt, "none", &[], 0, 0, Reversed, 0)?;
    row(rt, "none, past the end", &[], 1, 0, Forward, 0)?;
    row(rt, "one", &[], 0, 1, Forward, 0)
}

fn main(rt: HostRuntime) -> io::Result<()> {
    even(&rt)?;
    odd(&rt)?;
    none(&rt)
}
