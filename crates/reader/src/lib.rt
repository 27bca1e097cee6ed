// The segment reader: it hands out the corners of one segment's part of the point store, forward or reversed, then says the end.
// `corner_at` and `step_at` do the work on plain values; `Reader` keeps the caller's store and the place together.
#![tactic(auto)]

ghost use Rattle.std.specs.Prelude.{◌≡◌};
ghost use Rattle.reader.specs.Reading.{said, told, say_at, tell_at, start_of, tell_of, moved_to};

use rules::Refusal;

#[derive(Clone, Copy, Debug, PartialEq, Eq)]
pub struct Corner {
    pub x: u32,
    pub y: u32,
}

// What a call hands out, and the place of the next call.
#[derive(Clone, Copy)]
pub struct Step {
    pub corner: Result<Option<Corner>, Refusal>,
    pub place: u32,
}

// Kept, point 5: a public call with plain values, named in docs/PROMISES.md, as `step_at` and `read_at` are; `Reader` keeps them together.
// The corner after `place` others of the part that starts at the point `first` and has `count` points; past the last one there is none.
pub fn corner_at(
    points: &[u32],
    first: u32,
    count: u32,
    reversed: bool,
    place: u32,
) -> Result<Option<Corner>, Refusal>
    ensures { said result ≡ say_at points.now first count reversed place }
{
    let f = first as usize;
    let n = count as usize;
    let p = place as usize;
    if points.len() / 2 < f + n {
        return Err(Refusal::OutsidePoints);
    }
    if n <= p {
        return Ok(None);
    }
    let i = if reversed { f + n - p - 1 } else { f + p };
    Ok(Some(Corner {
        x: store::at(points, 2 * i),
        y: store::at(points, 2 * i + 1),
    }))
}

// The same, with the place of the next call: past the last corner it stays.
pub fn step_at(points: &[u32], first: u32, count: u32, reversed: bool, place: u32) -> Step
    ensures { told result ≡ tell_at points.now first count reversed place }
{
    Step {
        corner: corner_at(points, first, count, reversed, place),
        place: if place < count { place + 1 } else { place },
    }
}

// The caller's point words and a place in one part of them, which starts at the point `first`; at the place `end` the end is said.
#[derive(Clone, Copy)]
pub struct Reader<'a> {
    pub points: &'a [u32],
    pub first: u32,
    pub end: u32,
    pub reversed: bool,
    pub place: u32,
}

impl<'a> Reader<'a> {
    pub fn new(points: &'a [u32], first: u32, count: u32, reversed: bool) -> Reader<'a>
        ensures { result ≡ start_of points.entry first count reversed }
    {
        Reader {
            points,
            first,
            end: count,
            reversed,
            place: 0,
        }
    }

    // What the next call hands out, and its place.
    pub fn step(self) -> Step
        ensures { told result ≡ tell_of self.entry }
    {
        step_at(self.points, self.first, self.end, self.reversed, self.place)
    }

    // The reader at another place.
    pub fn moved(self, place: u32) -> Reader<'a>
        ensures { result ≡ moved_to self.entry place }
    {
        Reader { place, ..self }
    }
}

// A reader made, moved to a place and asked: its parameters are plain.
pub fn read_at(points: &[u32], first: u32, count: u32, reversed: bool, place: u32) -> Step
    ensures { told result ≡ tell_at points.now first count reversed place }
{
    Reader::new(points, first, count, reversed)
        .moved(place)
        .step()
}
