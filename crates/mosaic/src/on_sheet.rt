// Millimetres on a sheet, for C programs: the call for a sheet, and its moves one at a time.
ghost use Rattle.std.specs.Prelude.{◌≡◌, [], ◌∷◌, get_or};
ghost use Rattle.calls.specs.Outcome.{answered};
ghost use Rattle.sheet.specs.Sheet.{sheet_with};
ghost use Rattle.sheet.specs.Within.{NoMoveLeaves};
ghost use Rattle.sheet.specs.Call.{whole_on_sheet};
ghost use Rattle.sheet.specs.Moving.{said, tell_of};
ghost use Rattle.calls.specs.Mode.{map_in};
ghost use Rattle.mosaic.specs.Moved.{code_of, point_after, mover_at, MoveTold};

use rules::Refusal;
use sheet::{Move, Mover, Place, Sheet};

// The whole cut list of a map that is to be cut from a sheet.
pub fn mosaic_sheet_whole(
    mode: u32,
    width: u32,
    height: u32,
    paints: u32,
    sheet_width: f64,
    sheet_height: f64,
    labels: &[u32],
    work: &mut [u32],
    nodes: &mut [u32],
    segments: &mut [u32],
    points: &mut [u32],
    references: &mut [u32],
    contours: &mut [u32],
    faces: &mut [u32],
    answer: &mut [u32; 8],
)
    ensures faces_after { answered answer.new (work.new ∷ nodes.new ∷ segments.new ∷ points.new ∷ references.new ∷ contours.new ∷ faces.new ∷ []) ≡ whole_on_sheet (sheet_with sheet_width sheet_height) (map_in mode width height paints labels.now) work.old nodes.old segments.old points.old references.old contours.old faces.old }
    ensures on_sheet { get_or answer.new 0 0 ≡ 0 → NoMoveLeaves (sheet_with sheet_width sheet_height) width height (get_or answer.new 2 0) segments.new points.new }
{
    let sheet = Sheet {
        width: sheet_width,
        height: sheet_height,
    };
    let s = calls::sized(mode, width, height, paints);
    *answer = calls::words(sheet::whole_on_sheet(
        sheet, s, labels, work, nodes, segments, points, references, contours, faces,
    ));
}

// The number of a move; its point, if it has one, goes to `point`.
fn put_move(made: Result<Option<Move>, Refusal>, point: &mut [f64; 2]) -> u32
    ensures { (result ≡ code_of (said made)) × (point.new ≡ point_after (said made) point.old) }
{
    match made {
        Ok(Some(Move::Travel { x, y })) => {
            *point = [x, y];
            0
        }
        Ok(Some(Move::Cut { x, y })) => {
            *point = [x, y];
            1
        }
        Ok(None) => 2,
        Err(refusal) => refusal.number(),
    }
}

// The next move of the mover at the place `at`, a segment and a place in it; `reversed` is 0 to read each segment forward, any other value backwards.
pub fn mosaic_move(
    width: u32,
    height: u32,
    sheet_width: f64,
    sheet_height: f64,
    count: u32,
    reversed: u32,
    segments: &[u32],
    points: &[u32],
    at: &mut [u32; 2],
    point: &mut [f64; 2],
) -> u32
    ensures { MoveTold (tell_of segments.now points.now (mover_at (sheet_with sheet_width sheet_height) width height count reversed at.old)) point.old result at.new point.new }
{
    let sheet = Sheet {
        width: sheet_width,
        height: sheet_height,
    };
    let place = Place {
        segment: at[0],
        place: at[1],
    };
    let start = Mover {
        sheet,
        width,
        height,
        count,
        reversed: reversed != 0,
        at: place,
    };
    let step = start.step(segments, points);
    let next = step.mover.at;
    *at = [next.segment, next.place];
    put_move(step.made, point)
}
