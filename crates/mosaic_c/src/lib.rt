// The exports of the archive for C programs: each is the function of its name in `mosaic`, and promises the same.
// Kept, point 2: each function stands in `mosaic` too, since a crate is a library or a static library and C has one name for both.
#![tactic(auto)]

mod bench;
mod flatten;
mod job;
mod listings;
mod measuring;
mod merging;
mod on_sheet;
mod trays;

ghost use Rattle.std.specs.Prelude.{◌≡◌, [], ◌∷◌};
ghost use Rattle.rules.specs.Calls.{size as size_of, graph as graph_of, whole as whole_of};
ghost use Rattle.calls.specs.Outcome.{answered};
ghost use Rattle.calls.specs.Mode.{map_in};

#[unsafe(no_mangle)]
pub extern "C" fn mosaic_version() -> u32
    ensures { result ≡ 20000 }
{
    mosaic::mosaic_version()
}

#[unsafe(no_mangle)]
pub extern "C" fn mosaic_size(
    mode: u32,
    width: u32,
    height: u32,
    paints: u32,
    labels: &[u32],
    work: &mut [u32],
    answer: &mut [u32; 8],
)
    ensures { answered answer.new (work.new ∷ []) ≡ size_of (map_in mode width height paints labels.now) work.old }
{
    mosaic::mosaic_size(mode, width, height, paints, labels, work, answer);
}

#[unsafe(no_mangle)]
pub extern "C" fn mosaic_graph(
    mode: u32,
    width: u32,
    height: u32,
    paints: u32,
    labels: &[u32],
    work: &mut [u32],
    nodes: &mut [u32],
    segments: &mut [u32],
    points: &mut [u32],
    answer: &mut [u32; 8],
)
    ensures { answered answer.new (work.new ∷ nodes.new ∷ segments.new ∷ points.new ∷ []) ≡ graph_of (map_in mode width height paints labels.now) work.old nodes.old segments.old points.old }
{
    mosaic::mosaic_graph(
        mode, width, height, paints, labels, work, nodes, segments, points, answer,
    );
}

#[unsafe(no_mangle)]
pub extern "C" fn mosaic_whole(
    mode: u32,
    width: u32,
    height: u32,
    paints: u32,
    labels: &[u32],
    work: &mut [u32],
    nodes: &mut [u32],
    segments: &mut [u32],
    points: &mut [u32],
    references: &mut [u32],
    contours: &mut [u32],
    faces: &mut [u32],
    answer: &mut [u32; 8],
)
    ensures { answered answer.new (work.new ∷ nodes.new ∷ segments.new ∷ points.new ∷ references.new ∷ contours.new ∷ faces.new ∷ []) ≡ whole_of (map_in mode width height paints labels.now) work.old nodes.old segments.old points.old references.old contours.old faces.old }
{
    mosaic::mosaic_whole(
        mode, width, height, paints, labels, work, nodes, segments, points, references, contours,
        faces, answer,
    );
}
