// The call `assemble` for C programs: faces over a graph that another writer made.
ghost use Rattle.std.specs.Prelude.{◌≡◌, [], ◌∷◌};
ghost use Rattle.accept.specs.Walks.{given};
ghost use Rattle.calls.specs.Outcome.{answered};
ghost use Rattle.workbench.specs.Bench.{assemble as assemble_of};
ghost use Rattle.calls.specs.Mode.{map_in};

pub fn mosaic_assemble(
    mode: u32,
    width: u32,
    height: u32,
    paints: u32,
    labels: &[u32],
    work: &mut [u32],
    nodes: &[u32],
    node_count: u32,
    segments: &[u32],
    segment_count: u32,
    points: &[u32],
    references: &mut [u32],
    contours: &mut [u32],
    faces: &mut [u32],
    answer: &mut [u32; 8],
)
    ensures { answered answer.new (work.new ∷ references.new ∷ contours.new ∷ faces.new ∷ []) ≡ assemble_of (map_in mode width height paints labels.now) (given nodes.now node_count segments.now segment_count points.now) work.old references.old contours.old faces.old }
{
    let s = calls::sized(mode, width, height, paints);
    *answer = calls::words(workbench::assemble(
        s,
        labels,
        work,
        nodes,
        node_count,
        segments,
        segment_count,
        points,
        references,
        contours,
        faces,
    ));
}
