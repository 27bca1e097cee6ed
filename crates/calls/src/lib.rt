// The calls: every map and every lent store is answered.
#![tactic(auto)]

ghost use Rattle.std.specs.Prelude.{◌≡◌, [], ◌∷◌, ◌++◌, ◌*◌, ◌≤◌, ltb, length, replicate};
ghost use Rattle.std.proofs.lemmas.List.Edits.{sets};
ghost use Rattle.rules.specs.Calls.{map_checks, graph_checks, face_checks, first_hit, graph_list, cut_list, size as size_of, graph as graph_of, whole as whole_of};
ghost use Rattle.rules.specs.Refusals.{number_in};
ghost use Rattle.lattice.specs.Size.{Sides, Map};
ghost use Rattle.lattice.specs.Planes.{plane};
ghost use Rattle.calls.specs.Outcome.{map_of, unlooked, graph_counts, with_faces, answer_of, answered_by, refused_if, outcome, answer_words};
ghost use Rattle.calls.specs.Mode.{size_in};
ghost use Rattle.calls.specs.Counted.{GraphRoom, FaceRoom, AllRoom, most_of};
ghost use Rattle.calls.specs.Steps.{GraphCounted, CountsGraph, CountsFaces};

use graph::Found;
use lattice::Size;
use rules::Refusal;
use std::error::Error;
use std::fmt;

/// The seven counts of docs/RULES.md.
#[derive(Clone, Copy, Debug, PartialEq, Eq)]
pub struct Counts {
    pub nodes: u32,
    pub segments: u32,
    pub points: u32,
    pub references: u32,
    pub contours: u32,
    pub faces: u32,
    pub steps: u32,
}

impl Counts {
    /// What a call answers that has counted, by the check of its stores.
    pub fn answer(self, room: Result<(), Refusal>) -> Result<Counts, Refused>
        ensures { result ≡ answered_by room self }
    {
        match room {
            Ok(()) => Ok(self),
            Err(why) => Err(Refused { why, counts: self }),
        }
    }
}

impl From<graph::Counts> for Counts {
    ghost from_gives = { λ c counts. counts ≡ graph_counts c };

    // No faces.
    fn from(c: graph::Counts) -> Counts {
        Counts {
            nodes: c.nodes,
            segments: c.segments,
            points: c.points,
            references: 0,
            contours: 0,
            faces: 0,
            steps: c.steps,
        }
    }
}

/// Why a call refuses, and what it had counted: nothing where the map or the work store is at fault.
#[derive(Clone, Copy, Debug, PartialEq, Eq)]
pub struct Refused {
    pub why: Refusal,
    pub counts: Counts,
}

impl From<Refusal> for Refused {
    ghost from_gives = { λ why refused. refused ≡ unlooked why };

    // Of a map that was not looked at.
    fn from(why: Refusal) -> Refused {
        let counts = Counts {
            nodes: 0,
            segments: 0,
            points: 0,
            references: 0,
            contours: 0,
            faces: 0,
            steps: 0,
        };
        Refused { why, counts }
    }
}

impl fmt::Display for Refused {
    fn fmt<W: fmt::Write>(&self, f: &mut fmt::Formatter<W>) -> fmt::Result {
        write!(f, "{}", self.why)
    }
}

impl Error for Refused {}

/// An answer as C programs have it: the number, then the counts.
pub fn words(answer: Result<Counts, Refused>) -> [u32; 8]
    ensures { result ≡ answer_words (answer_of answer) }
{
    let (number, c) = match answer {
        Ok(counts) => (0, counts),
        Err(refused) => (refused.why.number(), refused.counts),
    };
    [
        number,
        c.nodes,
        c.segments,
        c.points,
        c.references,
        c.contours,
        c.faces,
        c.steps,
    ]
}

// The map that a mode and three numbers mean.
// Kept, point 1: any number is a mode, as C passes it (include/mosaic.h); an enum would ask more of callers.
pub fn sized(mode: u32, width: u32, height: u32, paints: u32) -> Size
    ensures { result ≡ size_in mode width height paints }
{
    let bound = if mode == 0 { lattice::OUTSIDE } else { paints };
    Size {
        width,
        height,
        paints,
        bound,
    }
}

// CHECKS: the first that hits.

// Of the map and the work store.
pub fn check_map(s: Size, labels: &[u32], work: &[u32]) -> Result<(), Refusal>
    ensures { number_in result ≡ first_hit (map_checks (map_of s labels.now) work.now) }
{
    if 16384 < s.width || 16384 < s.height {
        return Err(Refusal::LongSide);
    }
    if labels.len() != (s.width as usize) * (s.height as usize) {
        return Err(Refusal::LabelCount);
    }
    if work.len() < 8 * lattice::plane(s) {
        return Err(Refusal::ShortWork);
    }
    Ok(())
}

// Of a store that holds `held` records and must hold `needed`: refused with whatever says why, a `Refusal` or a number.
pub fn short<W: Copy>(why: W, held: usize, needed: u32) -> Result<(), W>
    ensures { result ≡ refused_if (ltb held needed) why }
{
    if held < needed as usize {
        return Err(why);
    }
    Ok(())
}

// Of the words lent for nodes, segments and points.
fn check_graph(c: Counts, nodes: usize, segments: usize, points: usize) -> Result<(), Refusal>
    ensures { GraphRoom c nodes segments points (number_in result) }
{
    short(Refusal::ShortNodes, nodes / 6, c.nodes)?;
    short(Refusal::ShortSegments, segments / 8, c.segments)?;
    short(Refusal::ShortPoints, points / 2, c.points)
}

// Of the words lent for references, contours and faces.
pub fn check_faces(
    c: Counts,
    references: usize,
    contours: usize,
    faces: usize,
) -> Result<(), Refusal>
    ensures { FaceRoom c references contours faces (number_in result) }
{
    short(Refusal::ShortReferences, references, c.references)?;
    short(Refusal::ShortContours, contours / 2, c.contours)?;
    short(Refusal::ShortFaces, faces / 5, c.faces)
}

// Of the words lent for all six.
pub fn check_all(
    c: Counts,
    nodes: usize,
    segments: usize,
    points: usize,
    references: usize,
    contours: usize,
    faces: usize,
) -> Result<(), Refusal>
    ensures { AllRoom c nodes segments points references contours faces (number_in result) }
{
    check_graph(c, nodes, segments, points)?;
    check_faces(c, references, contours, faces)
}

// The counts that no map of these sides exceeds: stores that pass the checks with them have room for any.
fn most(s: Size) -> Counts
    requires { Sides s }
    ensures { result ≡ most_of s }
{
    let corners = lattice::plane(s) as u32;
    let pixels = s.width * s.height;
    let cracks = 2 * pixels + s.width + s.height;
    Counts {
        nodes: corners,
        segments: cracks,
        points: 2 * cracks,
        references: 2 * cracks,
        contours: corners,
        faces: pixels,
        steps: cracks,
    }
}

// STEPS

// The work store's first eight planes to 0.
pub fn clear(s: Size, work: &mut [u32])
    requires { (s.width ≤ 16384) × (s.height ≤ 16384) × (8 * plane s.width s.height ≤ length work.old) }
    ensures { work.new ≡ sets work.old 0 (replicate (8 * plane s.width s.height) 0) }
{
    store::fill(work, 0, 8 * lattice::plane(s), 0);
}

// The graph's counts, without a word written.
pub fn count_graph(s: Size, labels: &[u32], work: &mut [u32]) -> graph::Counts
    requires map { Map s labels.now }
    requires planes { 8 * plane s.width s.height ≤ length work.old }
    ensures { CountsGraph s labels.now work.old work.new result }
{
    let mut nodes = [0u32; 0];
    let mut segments = [0u32; 0];
    let mut points = [0u32; 0];
    graph::extract(s, labels, work, &mut nodes, &mut segments, &mut points)
}

// The counts of a graph and of its faces together.
pub fn whole_counts(c: graph::Counts, f: face::Counts) -> Counts
    ensures { result ≡ with_faces c f }
{
    Counts {
        references: f.references,
        contours: f.contours,
        faces: f.faces,
        ..Counts::from(c)
    }
}

// The counts of the faces beside the graph's.
pub fn count_faces(s: Size, labels: &[u32], work: &mut [u32], c: graph::Counts) -> Counts
    requires map { Map s labels.now }
    requires planes { 8 * plane s.width s.height ≤ length work.old }
    requires graph { GraphCounted s labels.now work.old c }
    ensures { CountsFaces s labels.now work.old c work.new result }
{
    let f = face::count(s, labels, work);
    whole_counts(c, f)
}

// AT ONCE, where the stores have room: the writing counts.

// Nodes, segments and points.
fn graph_at_once(
    s: Size,
    labels: &[u32],
    work: &mut [u32],
    nodes: &mut [u32],
    segments: &mut [u32],
    points: &mut [u32],
) -> Counts
    requires map { first_hit (map_checks (map_of s labels.now) work.old) ≡ 0 }
    requires room { first_hit (graph_checks (graph_list (map_of s labels.now)) nodes.old segments.old points.old) ≡ 0 }
    ensures { outcome (Ok result) (work.new ∷ nodes.new ∷ segments.new ∷ points.new ∷ []) ≡ graph_of (map_of s labels.now) work.old nodes.old segments.old points.old }
{
    let c = graph::extract(s, labels, work, nodes, segments, points);
    clear(s, work);
    Counts::from(c)
}

// The whole cut list.
fn whole_at_once(
    s: Size,
    labels: &[u32],
    work: &mut [u32],
    nodes: &mut [u32],
    segments: &mut [u32],
    points: &mut [u32],
    references: &mut [u32],
    contours: &mut [u32],
    faces: &mut [u32],
) -> Counts
    requires map { first_hit (map_checks (map_of s labels.now) work.old) ≡ 0 }
    requires room { first_hit (graph_checks (cut_list (map_of s labels.now)) nodes.old segments.old points.old ++ face_checks (cut_list (map_of s labels.now)) references.old contours.old faces.old) ≡ 0 }
    ensures { outcome (Ok result) (work.new ∷ nodes.new ∷ segments.new ∷ points.new ∷ references.new ∷ contours.new ∷ faces.new ∷ []) ≡ whole_of (map_of s labels.now) work.old nodes.old segments.old points.old references.old contours.old faces.old }
{
    let c = graph::extract(s, labels, work, nodes, segments, points);
    let painted = face::islands::islands(s, labels, work);
    let done = assemble::assemble(
        s, labels, nodes, segments, points, c.segments, work, references, contours, faces,
    );
    clear(s, work);
    let f = face::Counts {
        references: done.references as u32,
        contours: done.contours as u32,
        faces: painted,
    };
    whole_counts(c, f)
}

// THE CALLS

// The seven counts.
pub fn size(s: Size, labels: &[u32], work: &mut [u32]) -> Result<Counts, Refused>
    ensures { outcome result (work.new ∷ []) ≡ size_of (map_of s labels.now) work.old }
{
    check_map(s, labels, work)?;
    let c = count_graph(s, labels, work);
    let counts = count_faces(s, labels, work, c);
    clear(s, work);
    Ok(counts)
}

// Nodes, segments and points.
pub fn graph(
    s: Size,
    labels: &[u32],
    work: &mut [u32],
    nodes: &mut [u32],
    segments: &mut [u32],
    points: &mut [u32],
) -> Result<Counts, Refused>
    ensures { outcome result (work.new ∷ nodes.new ∷ segments.new ∷ points.new ∷ []) ≡ graph_of (map_of s labels.now) work.old nodes.old segments.old points.old }
{
    check_map(s, labels, work)?;
    if check_graph(most(s), nodes.len(), segments.len(), points.len()).is_ok() {
        return Ok(graph_at_once(s, labels, work, nodes, segments, points));
    }
    let c = count_graph(s, labels, work);
    let counts = Counts::from(c);
    let room = check_graph(counts, nodes.len(), segments.len(), points.len());
    if room.is_ok() {
        graph::trace(s, labels, work, nodes, segments, points, Found::from(c));
    }
    clear(s, work);
    counts.answer(room)
}

// The whole cut list.
pub fn whole(
    s: Size,
    labels: &[u32],
    work: &mut [u32],
    nodes: &mut [u32],
    segments: &mut [u32],
    points: &mut [u32],
    references: &mut [u32],
    contours: &mut [u32],
    faces: &mut [u32],
) -> Result<Counts, Refused>
    ensures { outcome result (work.new ∷ nodes.new ∷ segments.new ∷ points.new ∷ references.new ∷ contours.new ∷ faces.new ∷ []) ≡ whole_of (map_of s labels.now) work.old nodes.old segments.old points.old references.old contours.old faces.old }
{
    check_map(s, labels, work)?;
    let any_fits = check_all(
        most(s),
        nodes.len(),
        segments.len(),
        points.len(),
        references.len(),
        contours.len(),
        faces.len(),
    )
    .is_ok();
    if any_fits {
        return Ok(whole_at_once(
            s, labels, work, nodes, segments, points, references, contours, faces,
        ));
    }
    let c = count_graph(s, labels, work);
    let counts = count_faces(s, labels, work, c);
    let room = check_all(
        counts,
        nodes.len(),
        segments.len(),
        points.len(),
        references.len(),
        contours.len(),
        faces.len(),
    );
    if room.is_ok() {
        graph::trace(s, labels, work, nodes, segments, points, Found::from(c));
        assemble::assemble(
            s, labels, nodes, segments, points, c.segments, work, references, contours, faces,
        );
    }
    clear(s, work);
    counts.answer(room)
}
