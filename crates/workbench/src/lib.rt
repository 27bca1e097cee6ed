// Assembling at the bench: the faces of a map over a graph that another writer made.
#![tactic(auto)]

ghost use Rattle.std.specs.Prelude.{◌≡◌, [], ◌∷◌};
ghost use Rattle.rules.specs.Calls.{first_hit};
ghost use Rattle.rules.specs.Refusals.{number_in};
ghost use Rattle.accept.specs.Walks.{given};
ghost use Rattle.calls.specs.Outcome.{map_of, outcome};
ghost use Rattle.workbench.specs.Bench.{strange, assemble as assemble_of};

use calls::{Counts, Refused};
use lattice::Size;
use rules::Refusal;

// Whether the graph describes the map.
fn check_given(fits: bool) -> Result<(), Refusal>
    ensures { number_in result ≡ first_hit (strange fits ∷ []) }
{
    if fits {
        return Ok(());
    }
    Err(Refusal::StrangeGraph)
}

// References, contours and faces over the graph in the stores `nodes`, `segments` and `points`, which are only read.
pub fn assemble(
    s: Size,
    labels: &[u32],
    work: &mut [u32],
    nodes: &[u32],
    node_count: u32,
    segments: &[u32],
    segment_count: u32,
    points: &[u32],
    references: &mut [u32],
    contours: &mut [u32],
    faces: &mut [u32],
) -> Result<Counts, Refused>
    ensures { outcome result (work.new ∷ references.new ∷ contours.new ∷ faces.new ∷ []) ≡ assemble_of (map_of s labels.now) (given nodes.now node_count segments.now segment_count points.now) work.old references.old contours.old faces.old }
{
    calls::check_map(s, labels, work)?;
    let c = calls::count_graph(s, labels, work);
    let counts = calls::count_faces(s, labels, work, c);
    let fits = accept::accept(
        s,
        labels,
        work,
        nodes,
        node_count,
        segments,
        segment_count,
        points,
        c.nodes,
        c.steps,
    );
    let strange = check_given(fits);
    let short = calls::check_faces(counts, references.len(), contours.len(), faces.len());
    let room = strange.and(short);
    if room.is_ok() {
        assemble::assemble(
            s,
            labels,
            nodes,
            segments,
            points,
            segment_count,
            work,
            references,
            contours,
            faces,
        );
    }
    calls::clear(s, work);
    counts.answer(room)
}
