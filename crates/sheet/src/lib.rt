// Millimetres on a sheet: where a corner lies, and the machine moves of a cut list, one at a time.
#![tactic(auto)]

ghost use Rattle.std.specs.Prelude.{◌≡◌, [], ◌∷◌, ◌-◌, ◌≤◌, false, T, IfOk};
ghost use Rattle.calls.specs.Outcome.{map_of, outcome};
ghost use Rattle.sheet.specs.Sheet.{unfit, unfit_sheet, along as along_of, across_of, down_of};
ghost use Rattle.sheet.specs.Within.{within, NoMoveLeaves};
ghost use Rattle.sheet.specs.Call.{whole_on_sheet};
ghost use Rattle.sheet.specs.Moving.{did_move, said, told, say_to, say_at, is_over, place_of, onward_from, start_of, moved_to, tell_there, tell_of};

use calls::{Counts, Refused};
use lattice::Size;
use reader::Corner;
use rules::Refusal;

// The two sides in millimetres.
#[derive(Clone, Copy)]
pub struct Sheet {
    pub width: f64,
    pub height: f64,
}

// A side that is not above 0, or is above 3000.
fn bad_side(side: f64) -> bool
    ensures { result ≡ unfit side }
{
    !(0.0 < side) || 3000.0 < side
}

// The far end of a side is the side itself; any other place is multiplied and then divided.
fn along(n: u32, count: u32, side: f64) -> f64
    ensures value { result ≡ along_of n count side }
    ensures on_side { unfit side ≡ false → n ≤ count → T (within result side) }
{
    if n == count {
        return side;
    }
    n as f64 * side / count as f64
}

impl Sheet {
    // One of the sides is not allowed.
    pub fn refused(self) -> bool
        ensures { result ≡ unfit_sheet self }
    {
        bad_side(self.width) || bad_side(self.height)
    }

    // The x of a corner, on a map of this width.
    pub fn across(self, width: u32, x: u32) -> f64
        ensures value { result ≡ across_of self width x }
        ensures on_sheet { unfit_sheet self ≡ false → x ≤ width → T (within result self.width) }
    {
        along(x, width, self.width)
    }

    // The y of a corner, on a map of this height.
    pub fn down(self, height: u32, y: u32) -> f64
        ensures value { result ≡ down_of self height y }
        ensures on_sheet { unfit_sheet self ≡ false → y ≤ height → T (within result self.height) }
    {
        along(y, height, self.height)
    }
}

#[derive(Clone, Copy, Debug, PartialEq)]
pub enum Move {
    Travel { x: f64, y: f64 },
    Cut { x: f64, y: f64 },
}

// ONE SEGMENT

// To a corner: at the place 0 a travel, at any other a cut.
fn move_to(sheet: Sheet, width: u32, height: u32, place: u32, corner: Corner) -> Move
    ensures { did_move result ≡ say_to sheet width height place corner.x corner.y }
{
    let x = sheet.across(width, corner.x);
    let y = sheet.down(height, corner.y);
    if place == 0 {
        return Move::Travel { x, y };
    }
    Move::Cut { x, y }
}

// Kept, point 5: a public call with plain values, named in docs/PROMISES.md; `Mover` keeps sheet and sides together.
// The move after `place` others of the part that starts at the point `first` and has `count` points, forward or reversed.
pub fn move_at(
    sheet: Sheet,
    width: u32,
    height: u32,
    points: &[u32],
    first: u32,
    count: u32,
    reversed: bool,
    place: u32,
) -> Result<Option<Move>, Refusal>
    ensures { said result ≡ say_at sheet width height points.now first count reversed place }
{
    let corner = reader::corner_at(points, first, count, reversed, place)?;
    Ok(corner.map(|corner| move_to(sheet, width, height, place, corner)))
}

// ALL SEGMENTS

// Where the next move is made: a segment of the list, and a place in it.
#[derive(Clone, Copy)]
pub struct Place {
    pub segment: u32,
    pub place: u32,
}

// Kept, point 5: two lent stores, as `Mover::step` is lent them, which docs/PROMISES.md names; a struct would be made of them there and read here.
// The segment's record and its part lie inside the stores, and its last corner is before the place.
fn over(segments: &[u32], points: &[u32], at: Place) -> bool
    ensures { result ≡ is_over segments.now points.now at.segment at.place }
{
    let i = at.segment as usize;
    if segments.len() < 8 * i + 8 {
        return false;
    }
    let first = store::at(segments, 8 * i);
    let count = store::at(segments, 8 * i + 1);
    if points.len() / 2 < first as usize + count as usize {
        return false;
    }
    count <= at.place
}

// Past the segments that are over.
fn onward(segments: &[u32], points: &[u32], count: u32, from: Place) -> Place
    ensures { place_of result ≡ onward_from segments.now points.now (count - from.segment) from.segment from.place }
{
    let mut at = from;
    // Kept, point 3: the place moves on, not an index alone: past the first segment it is 0.
    while at.segment < count && over(segments, points, at) {
        at = Place {
            segment: at.segment + 1,
            place: 0,
        };
    }
    at
}

// A sheet, the sides of its map, how many segments there are, whether each is read backwards, and the place of the next move.
#[derive(Clone, Copy)]
pub struct Mover {
    pub sheet: Sheet,
    pub width: u32,
    pub height: u32,
    pub count: u32,
    pub reversed: bool,
    pub at: Place,
}

// What a call makes, and the mover for the next call.
#[derive(Clone, Copy)]
pub struct Step {
    pub made: Result<Option<Move>, Refusal>,
    pub mover: Mover,
}

impl Mover {
    pub fn new(sheet: Sheet, width: u32, height: u32, count: u32, reversed: bool) -> Mover
        ensures { result ≡ start_of sheet width height count reversed }
    {
        Mover {
            sheet,
            width,
            height,
            count,
            reversed,
            at: Place {
                segment: 0,
                place: 0,
            },
        }
    }

    // At another place.
    fn moved(self, at: Place) -> Mover
        ensures { result ≡ moved_to self (place_of at) }
    {
        Mover { at, ..self }
    }

    // The move at the mover's own place, in a segment that is not over.
    fn here(self, segments: &[u32], points: &[u32]) -> Step
        ensures { told result ≡ tell_there segments.now points.now self }
    {
        let at = self.at;
        let i = at.segment as usize;
        if self.count <= at.segment {
            return Step {
                made: Ok(None),
                mover: self,
            };
        }
        if segments.len() < 8 * i + 8 {
            return Step {
                made: Err(Refusal::OutsidePoints),
                mover: self,
            };
        }
        let first = store::at(segments, 8 * i);
        let count = store::at(segments, 8 * i + 1);
        let made = move_at(
            self.sheet,
            self.width,
            self.height,
            points,
            first,
            count,
            self.reversed,
            at.place,
        );
        if count <= at.place {
            return Step { made, mover: self };
        }
        let next = Place {
            place: at.place + 1,
            ..at
        };
        Step {
            made,
            mover: self.moved(next),
        }
    }

    // The next move, and the mover after it.
    pub fn step(self, segments: &[u32], points: &[u32]) -> Step
        ensures { told result ≡ tell_of segments.now points.now self }
    {
        let next = onward(segments, points, self.count, self.at);
        self.moved(next).here(segments, points)
    }
}

// THE CALL

// The whole cut list of a map that is to be cut from a sheet: refused as `calls::whole`, and then where the sheet is not allowed.
pub fn whole_on_sheet(
    sheet: Sheet,
    s: Size,
    labels: &[u32],
    work: &mut [u32],
    nodes: &mut [u32],
    segments: &mut [u32],
    points: &mut [u32],
    references: &mut [u32],
    contours: &mut [u32],
    faces: &mut [u32],
) -> Result<Counts, Refused>
    ensures faces_after { outcome result (work.new ∷ nodes.new ∷ segments.new ∷ points.new ∷ references.new ∷ contours.new ∷ faces.new ∷ []) ≡ whole_on_sheet sheet (map_of s labels.now) work.old nodes.old segments.old points.old references.old contours.old faces.old }
    ensures on_sheet { IfOk result (λ counts. NoMoveLeaves sheet s.width s.height counts.segments segments.new points.new) }
{
    if sheet.refused() {
        let counts = calls::size(s, labels, work)?;
        let room = calls::check_all(
            counts,
            nodes.len(),
            segments.len(),
            points.len(),
            references.len(),
            contours.len(),
            faces.len(),
        );
        return counts.answer(room.and(Err(Refusal::BadSheet)));
    }
    calls::whole(
        s, labels, work, nodes, segments, points, references, contours, faces,
    )
}
