// The library for C programs: each function is one of the calls. A slice is a pointer and a length, the answer a pointer to eight words.
// Kept, points 5 and 6: each store is a pointer and a length of its own, in words and lent, as the C interface has them.
#![tactic(auto)]

pub mod bench;
pub mod flatten;
pub mod job;
pub mod listings;
pub mod measuring;
pub mod merging;
pub mod on_sheet;
pub mod trays;

ghost use Rattle.std.specs.Prelude.{◌≡◌, [], ◌∷◌};
ghost use Rattle.rules.specs.Refusals.{number_in};
ghost use Rattle.rules.specs.Calls.{size as size_of, graph as graph_of, whole as whole_of};
ghost use Rattle.calls.specs.Outcome.{answered};
ghost use Rattle.calls.specs.Mode.{map_in};

use rules::Refusal;

// MOSAIC_VERSION of the header that this library goes with.
pub fn mosaic_version() -> u32
    ensures { result ≡ 20000 }
{
    20000
}

// The number of a call, 0 when it was not refused.
fn number(outcome: Result<(), Refusal>) -> u32
    ensures { result ≡ number_in outcome }
{
    match outcome {
        Ok(()) => 0,
        Err(refusal) => refusal.number(),
    }
}

pub fn mosaic_size(
    mode: u32,
    width: u32,
    height: u32,
    paints: u32,
    labels: &[u32],
    work: &mut [u32],
    answer: &mut [u32; 8],
)
    ensures { answered answer.new (work.new ∷ []) ≡ size_of (map_in mode width height paints labels.now) work.old }
{
    let s = calls::sized(mode, width, height, paints);
    *answer = calls::words(calls::size(s, labels, work));
}

pub fn mosaic_graph(
    mode: u32,
    width: u32,
    height: u32,
    paints: u32,
    labels: &[u32],
    work: &mut [u32],
    nodes: &mut [u32],
    segments: &mut [u32],
    points: &mut [u32],
    answer: &mut [u32; 8],
)
    ensures { answered answer.new (work.new ∷ nodes.new ∷ segments.new ∷ points.new ∷ []) ≡ graph_of (map_in mode width height paints labels.now) work.old nodes.old segments.old points.old }
{
    let s = calls::sized(mode, width, height, paints);
    *answer = calls::words(calls::graph(s, labels, work, nodes, segments, points));
}

pub fn mosaic_whole(
    mode: u32,
    width: u32,
    height: u32,
    paints: u32,
    labels: &[u32],
    work: &mut [u32],
    nodes: &mut [u32],
    segments: &mut [u32],
    points: &mut [u32],
    references: &mut [u32],
    contours: &mut [u32],
    faces: &mut [u32],
    answer: &mut [u32; 8],
)
    ensures { answered answer.new (work.new ∷ nodes.new ∷ segments.new ∷ points.new ∷ references.new ∷ contours.new ∷ faces.new ∷ []) ≡ whole_of (map_in mode width height paints labels.now) work.old nodes.old segments.old points.old references.old contours.old faces.old }
{
    let s = calls::sized(mode, width, height, paints);
    *answer = calls::words(calls::whole(
        s, labels, work, nodes, segments, points, references, contours, faces,
    ));
}
