// The exports of `mosaic::on_sheet`.
ghost use Rattle.std.specs.Prelude.{◌≡◌, [], ◌∷◌, get_or};
ghost use Rattle.calls.specs.Outcome.{answered};
ghost use Rattle.sheet.specs.Sheet.{sheet_with};
ghost use Rattle.sheet.specs.Within.{NoMoveLeaves};
ghost use Rattle.sheet.specs.Call.{whole_on_sheet};
ghost use Rattle.sheet.specs.Moving.{tell_of};
ghost use Rattle.calls.specs.Mode.{map_in};
ghost use Rattle.mosaic.specs.Moved.{mover_at, MoveTold};

#[unsafe(no_mangle)]
pub extern "C" fn mosaic_sheet_whole(
    mode: u32,
    width: u32,
    height: u32,
    paints: u32,
    sheet_width: f64,
    sheet_height: f64,
    labels: &[u32],
    work: &mut [u32],
    nodes: &mut [u32],
    segments: &mut [u32],
    points: &mut [u32],
    references: &mut [u32],
    contours: &mut [u32],
    faces: &mut [u32],
    answer: &mut [u32; 8],
)
    ensures faces_after { answered answer.new (work.new ∷ nodes.new ∷ segments.new ∷ points.new ∷ references.new ∷ contours.new ∷ faces.new ∷ []) ≡ whole_on_sheet (sheet_with sheet_width sheet_height) (map_in mode width height paints labels.now) work.old nodes.old segments.old points.old references.old contours.old faces.old }
    ensures on_sheet { get_or answer.new 0 0 ≡ 0 → NoMoveLeaves (sheet_with sheet_width sheet_height) width height (get_or answer.new 2 0) segments.new points.new }
{
    mosaic::on_sheet::mosaic_sheet_whole(
        mode,
        width,
        height,
        paints,
        sheet_width,
        sheet_height,
        labels,
        work,
        nodes,
        segments,
        points,
        references,
        contours,
        faces,
        answer,
    );
}

#[unsafe(no_mangle)]
pub extern "C" fn mosaic_move(
    width: u32,
    height: u32,
    sheet_width: f64,
    sheet_height: f64,
    count: u32,
    reversed: u32,
    segments: &[u32],
    points: &[u32],
    at: &mut [u32; 2],
    point: &mut [f64; 2],
) -> u32
    ensures { MoveTold (tell_of segments.now points.now (mover_at (sheet_with sheet_width sheet_height) width height count reversed at.old)) point.old result at.new point.new }
{
    mosaic::on_sheet::mosaic_move(
        width,
        height,
        sheet_width,
        sheet_height,
        count,
        reversed,
        segments,
        points,
        at,
        point,
    )
}
