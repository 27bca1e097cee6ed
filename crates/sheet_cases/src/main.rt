// Cuts small maps from sheets and prints the answers and the moves, a number of millimetres by its bits; then moves over odd stores.
#![tactic(auto)]

use lattice::{OUTSIDE, Size};
use rules::Refusal;
use sheet::{Move, Mover, Sheet};
use std::{fmt, io};

// A number of millimetres.
#[derive(Drop)]
struct Bits(f64);

impl fmt::Display for Bits {
    fn fmt<W: fmt::Write>(&self, f: &mut fmt::Formatter<W>) -> fmt::Result {
        if self.0.is_nan() {
            write!(f, "no number")
        } else {
            write!(f, "{:016x}", self.0.to_bits())
        }
    }
}

// What a call said.
#[derive(Drop)]
struct Said(Result<Option<Move>, Refusal>);

impl fmt::Display for Said {
    fn fmt<W: fmt::Write>(&self, f: &mut fmt::Formatter<W>) -> fmt::Result {
        match self.0 {
            Ok(Some(Move::Travel { x, y })) => write!(f, "travel {} {}", Bits(x), Bits(y)),
            Ok(Some(Move::Cut { x, y })) => write!(f, "cut    {} {}", Bits(x), Bits(y)),
            Ok(None) => write!(f, "end"),
            Err(why) => write!(f, "{}", why.number()),
        }
    }
}

// What so many calls of a mover say.
fn moves(
    rt: &impl Print,
    start: Mover,
    calls: u32,
    segments: &[u32],
    points: &[u32],
) -> io::Result<()> {
    let mut mover = start;
    for _ in 0..calls {
        let step = mover.step(segments, points);
        println!(rt; "{}", Said(step.made))?;
        mover = step.mover;
    }
    Ok(())
}

// A map to be cut from a sheet.
#[derive(Clone, Copy)]
struct Panel<'a> {
    sheet: Sheet,
    size: Size,
    labels: &'a [u32],
    reversed: bool,
}

impl Panel<'_> {
    fn cut(self, rt: &impl Print, name: &str) -> io::Result<()> {
        self.cut_into(rt, name, &mut [0; 16])
    }

    // The answer with this store lent for the faces, and the moves where it is not refused.
    fn cut_into(self, rt: &impl Print, name: &str, faces: &mut [u32]) -> io::Result<()> {
        let mut segments = [0; 64];
        let mut points = [0; 64];
        let answer = sheet::whole_on_sheet(
            self.sheet,
            self.size,
            self.labels,
            &mut [0; 128],
            &mut [0; 24],
            &mut segments,
            &mut points,
            &mut [0; 16],
            &mut [0; 16],
            faces,
        );
        let [number, _, count, _, _, _, _, steps] = calls::words(answer);
        println!(rt; "{name}: {number} {count} {steps}")?;
        if answer.is_err() {
            return Ok(());
        }
        let Size { width, height, .. } = self.size;
        let mover = Mover::new(self.sheet, width, height, count, self.reversed);
        // A travel for each segment, a cut for each step, and the end twice.
        let calls = count.saturating_add(steps).saturating_add(2);
        moves(rt, mover, calls, &segments, &points)
    }
}

fn plain(width: u32, height: u32) -> Size {
    Size {
        width,
        height,
        paints: 2,
        bound: OUTSIDE,
    }
}

// ALLOWED SHEETS

fn allowed(rt: &impl Print) -> io::Result<()> {
    let tenth = Panel {
        // no binary fraction: each coordinate is rounded
        sheet: Sheet {
            width: 0.1,
            height: 1000.1,
        },
        size: plain(3, 1),
        labels: &[0, 0, 1],
        reversed: false,
    };
    let reversed = Panel {
        reversed: true,
        ..tenth
    };
    let far = Panel {
        // computed as the others are, the far end would be off the sheet
        sheet: Sheet {
            width: 2999.9999999999973,
            height: 3000.0,
        },
        labels: &[OUTSIDE, OUTSIDE, 0],
        ..tenth
    };
    let empty = Panel {
        size: plain(0, 0),
        labels: &[],
        ..far
    };
    tenth.cut(rt, "3 by 1 on 0.1 by 1000.1")?;
    reversed.cut(rt, "the same, reversed")?;
    far.cut(rt, "3 by 1 on 2999.9999999999973 by 3000")?;
    empty.cut(rt, "0 by 0")
}

// NUMBERS

// One pixel on a sheet.
fn pixel(width: f64, height: f64) -> Panel<'static> {
    Panel {
        sheet: Sheet { width, height },
        size: plain(1, 1),
        labels: &[0],
        reversed: false,
    }
}

fn refusals(rt: &impl Print) -> io::Result<()> {
    pixel(0.0, 1.0).cut(rt, "a side of 0")?;
    pixel(1.0, -0.0).cut(rt, "a side of -0")?;
    pixel(-1.0, 1.0).cut(rt, "a side below 0")?;
    pixel(1.0, 3000.0000000000005).cut(rt, "a side just above 3000")?;
    pixel(f64::INFINITY, 1.0).cut(rt, "no end")?;
    pixel(f64::NAN, 1.0).cut(rt, "no number")?;
    pixel(1.0, f64::NAN).cut(rt, "no number below")?;
    pixel(5e-324, 3000.0).cut(rt, "the smallest side")?;
    let none = pixel(0.0, 0.0);
    let unlabelled = Panel {
        labels: &[],
        ..none
    };
    none.cut_into(rt, "9 is asked before 16", &mut [])?;
    unlabelled.cut_into(rt, "2 is asked before 16", &mut [])
}

// ODD STORES

// The record of a segment whose points start at `first`.
fn record(first: u32, count: u32) -> [u32; 8] {
    [first, count, 0, 0, 0, 0, 0, 0]
}

// Four calls of a mover over so many segments.
fn odd(
    rt: &impl Print,
    name: &str,
    count: u32,
    segments: &[u32],
    points: &[u32],
) -> io::Result<()> {
    let sheet = Sheet {
        width: 1.0,
        height: 1.0,
    };
    println!(rt; "{name}")?;
    moves(
        rt,
        Mover::new(sheet, 2, 4, count, false),
        4,
        segments,
        points,
    )
}

fn stores(rt: &impl Print) -> io::Result<()> {
    let p = [1, 3, 2, 3];
    let none_and_one = [record(0, 0), record(1, 1)];
    let one_and_two = [record(0, 1), record(1, 2)];
    let one_and_one = [record(0, 1), record(1, 1)];
    let short = &one_and_one.as_flattened()[..15];
    odd(rt, "a part of two points", 1, &record(0, 2), &p)?;
    odd(
        rt,
        "a part of no point, and one of one",
        2,
        none_and_one.as_flattened(),
        &p,
    )?;
    odd(
        rt,
        "a part that leaves the points",
        2,
        one_and_two.as_flattened(),
        &p,
    )?;
    odd(rt, "a record that leaves the segments", 2, short, &p)?;
    odd(
        rt,
        "a corner off the map, and a point of no map",
        1,
        &record(0, 2),
        &[3, u32::MAX, u32::MAX, 5],
    )
}

fn main(rt: HostRuntime) -> io::Result<()> {
    allowed(&rt)?;
    refusals(&rt)?;
    stores(&rt)
}
