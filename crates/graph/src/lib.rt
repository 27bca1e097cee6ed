// The boundary graph of a map: nodes, segments and their points, in lent stores.
// A store drops the words that it has no place for, so empty stores make the same calls count only.
#![tactic(auto)]

ghost use Rattle.std.specs.Prelude.{◌≡◌, true, false, not, ◌&&◌, ◌||◌, [], ◌∷◌, suc, ◌+◌, ◌*◌, ◌<◌, ◌≤◌, length, map, set, get_or, eqb};
ghost use Rattle.std.proofs.lemmas.List.Edits.{sets};
ghost use Rattle.rules.specs.Picture.{code, dart};
ghost use Rattle.rules.specs.Graph.{row};
ghost use Rattle.rules.specs.Records.{node_words};
ghost use Rattle.lattice.specs.Size.{Sides, Map, Corner, pic};
ghost use Rattle.lattice.specs.Planes.{plane};
ghost use Rattle.lattice.specs.Walker.{Edge, dart_of};
ghost use Rattle.lattice.specs.Around.{around_of, crack_in, mask_in, node_in};
ghost use Rattle.graph.specs.Planes.{id_slot, packed, unpacked, slot, marked, corners_at};
ghost use Rattle.graph.specs.Walk.{Starts, Went};
ghost use Rattle.graph.specs.Words.{node_word, segment_word, Ended, Linked};
ghost use Rattle.graph.specs.Todo.{Due, Does};
ghost use Rattle.graph.specs.Nodes.{found_of, listing, Listed, Lists, Noded, Tallied, Classified};
ghost use Rattle.graph.specs.Stage.{state, Stage, Standing, starts};
ghost use Rattle.graph.specs.Extracted.{Extracted};

use lattice::{Around, NONE, NodeId, RegionId, SegId, Size, Walker};
use rules::Dir;

// The last step of a walk, moved to its end, and how many steps there were.
#[derive(Clone, Copy, Debug, PartialEq, Eq)]
pub struct Walked {
    pub to: Walker,
    pub steps: u32,
}

// The nodes that a segment joins, and its last direction.
#[derive(Clone, Copy, Debug, PartialEq, Eq)]
pub struct Joined {
    pub start: NodeId,
    pub end: NodeId,
    pub arrives: Dir,
}

// A segment; a ring joins no nodes.
#[derive(Clone, Copy, Debug, PartialEq, Eq)]
pub struct Segment {
    pub first: u32,
    pub count: u32,
    pub joined: Option<Joined>,
    pub left: RegionId,
    pub right: RegionId,
    pub leaves: Dir,
}

// A corner.
#[derive(Clone, Copy, Debug, PartialEq, Eq)]
pub struct Point {
    pub x: u32,
    pub y: u32,
}

// How many nodes there are, and how many bends: corners with an E and an S crack and no other. A ring starts at a bend.
#[derive(Clone, Copy, Debug, PartialEq, Eq)]
pub struct Found {
    pub nodes: u32,
    pub bends: u32,
}

#[derive(Clone, Copy, Debug, PartialEq, Eq)]
pub struct Counts {
    pub nodes: u32,
    pub bends: u32,
    pub segments: u32,
    pub points: u32,
    pub steps: u32,
}

impl From<Counts> for Found {
    ghost from_gives = { λ c f. f ≡ found_of c };

    fn from(c: Counts) -> Found {
        Found {
            nodes: c.nodes,
            bends: c.bends,
        }
    }
}

// THE WORK STORE, in planes of a word for each corner: marks of walked E and W edges in plane 0, of S and N edges in plane 1, the number of the
// node at each corner in plane 2, the corners of the nodes, by number, in plane 3, and those of the bends in plane 4.

// The work word of the edge ahead of w.
#[tactic(auto, unfolding(crate::specs::Planes::slot_at))]
fn edge_slot(s: Size, w: Walker) -> usize
    requires sides { Sides s }
    requires edge { Edge s w }
    ensures { (result ≡ slot s.width s.height (dart_of w)) × (result < 2 * plane s.width s.height) }
{
    match w.d {
        Dir::N => lattice::plane(s) + lattice::corner_index(s, w.x, w.y - 1),
        Dir::E => lattice::corner_index(s, w.x, w.y),
        Dir::S => lattice::plane(s) + lattice::corner_index(s, w.x, w.y),
        Dir::W => lattice::corner_index(s, w.x - 1, w.y),
    }
}

pub fn is_visited(s: Size, work: &[u32], w: Walker) -> bool
    requires sides { Sides s }
    requires edge { Edge s w }
    requires marks { 2 * plane s.width s.height ≤ length work.now }
    ensures { result ≡ marked s.width s.height work.now (dart_of w) }
{
    let i = edge_slot(s, w);
    work[i] != 0
}

pub fn mark_visited(s: Size, work: &mut [u32], w: Walker)
    requires sides { Sides s }
    requires edge { Edge s w }
    requires marks { 2 * plane s.width s.height ≤ length work.old }
    ensures { work.new ≡ set work.old (slot s.width s.height (dart_of w)) 1 }
{
    let i = edge_slot(s, w);
    work[i] = 1;
}

// The number of the node at (x, y).
fn node_id(s: Size, work: &[u32], x: u32, y: u32) -> NodeId
    requires sides { Sides s }
    requires corner { Corner s x y }
    requires planes { 3 * plane s.width s.height ≤ length work.now }
    ensures { result.0 ≡ get_or work.now (id_slot s.width s.height x y) 0 }
{
    let i = 2 * lattice::plane(s) + lattice::corner_index(s, x, y);
    NodeId(work[i])
}

// The corner that the word i holds.
fn corner_at(work: &[u32], i: usize) -> Point
    requires { i < length work.now }
    ensures { (result.x ≡ (unpacked (get_or work.now i 0)).0) × (result.y ≡ (unpacked (get_or work.now i 0)).1) }
{
    let p = work[i];
    Point {
        x: p % 65536,
        y: p / 65536,
    }
}

// The corner (x, y) into the word i.
fn put_corner(work: &mut [u32], i: usize, x: u32, y: u32)
    requires word { i < length work.old }
    requires across { x ≤ 16384 }
    requires down { y ≤ 16384 }
    ensures { work.new ≡ set work.old i (packed x y) }
{
    work[i] = y * 65536 + x;
}

// Whether a walk from w stops at m, with the labels a around it.
fn stops(a: Around, m: Walker, w: Walker) -> bool
    ensures { result ≡ (node_in a || (eqb m.x w.x && eqb m.y w.y)) }
{
    a.node() || (m.x == w.x && m.y == w.y)
}

// The corner (x, y) as the record i of points.
fn put_point(points: &mut [u32], i: usize, x: u32, y: u32)
    requires { i ≤ 4611686018427387904 }
    ensures { points.new ≡ sets points.old (2 * i) (x ∷ y ∷ []) }
{
    // Kept, point 2: not `put_all`, which makes each step of a walk slower.
    store::put(points, 2 * i, x);
    store::put(points, 2 * i + 1, y);
}

// From w along the cracks to a node, or back to the corner of w. Each edge is marked, and the corners reached are
// the records of points after the record at.
fn walk(
    s: Size,
    labels: &[u32],
    work: &mut [u32],
    points: &mut [u32],
    at: usize,
    w: Walker,
) -> Walked
    requires starts { Starts s labels.now w }
    requires marks { 2 * plane s.width s.height ≤ length work.old }
    requires place { at ≤ 4294967296 }
    ensures { Went s labels.now work.old points.old at w work.new points.new result }
{
    let mut c = w;
    let mut steps: u32 = 0;
    loop {
        mark_visited(s, work, c);
        steps += 1;
        let m = c.moved();
        put_point(points, at + (steps as usize), m.x, m.y);
        let a = lattice::look(s, labels, m.x, m.y);
        if stops(a, m, w) {
            return Walked { to: m, steps };
        }
        c = c.step(a);
    }
}

// The node record n: its corner, and no out entries yet.
fn put_node(nodes: &mut [u32], n: NodeId, x: u32, y: u32)
    ensures { nodes.new ≡ sets nodes.old (6 * n.0) (node_word x y) }
{
    store::put_all(nodes, 6 * (n.0 as usize), [x, y, NONE, NONE, NONE, NONE]);
}

// The records of the first n nodes, whose corners stand in the work store from `at` on.
fn put_nodes(work: &[u32], at: usize, nodes: &mut [u32], n: u32)
    requires { at + n ≤ length work.now }
    ensures { nodes.new ≡ sets nodes.old 0 (node_words [] (corners_at work.now at n)) }
{
    for i in 0..n {
        let p = corner_at(work, at + (i as usize));
        put_node(nodes, NodeId(i), p.x, p.y);
    }
}

// The segment record n.
fn put_segment(segments: &mut [u32], n: SegId, g: Segment)
    ensures { segments.new ≡ sets segments.old (8 * n.0) (segment_word g) }
{
    let (start, end, arrives) = match g.joined {
        Some(j) => (j.start.0, j.end.0, j.arrives.code()),
        None => (NONE, NONE, 0),
    };
    store::put_all(
        segments,
        8 * (n.0 as usize),
        [
            g.first,
            g.count,
            start,
            end,
            g.left.0,
            g.right.0,
            g.leaves.code(),
            arrives,
        ],
    );
}

// The out entry of the node n in the direction d.
fn put_out(nodes: &mut [u32], n: NodeId, d: Dir, v: u32)
    ensures { nodes.new ≡ set nodes.old (6 * n.0 + (2 + code d)) v }
{
    let i = 6 * (n.0 as usize) + (2 + (d.code() as usize));
    store::put(nodes, i, v);
}

// The nodes of the segment that goes from w, where the labels are a, to e. Where w is at a node, the out entries of both.
fn join(
    s: Size,
    a: Around,
    work: &[u32],
    nodes: &mut [u32],
    n: SegId,
    w: Walker,
    e: Walked,
) -> Option<Joined>
    requires { Ended s work.now w e n.0 }
    ensures { Linked s a work.now nodes.old n.0 w e nodes.new result }
{
    if !a.node() {
        return None;
    }
    let start = node_id(s, work, w.x, w.y);
    let end = node_id(s, work, e.to.x, e.to.y);
    put_out(nodes, start, w.d, 2 * n.0);
    put_out(nodes, end, e.to.d.back(), 2 * n.0 + 1);
    Some(Joined {
        start,
        end,
        arrives: e.to.d,
    })
}

// CLASSIFY: the nodes and the bends, row by row.

// The corner (x, y), with the labels a around it, listed if it is a node or a bend, after those of f.
fn classify_corner(s: Size, a: Around, work: &mut [u32], f: Found, x: u32, y: u32) -> Found
    requires sides { Sides s }
    requires corner { Corner s x y }
    requires nodes { (node_in a ≡ true → f.nodes < plane s.width s.height) }
    requires bends { (mask_in a ≡ 6 → f.bends < plane s.width s.height) }
    requires planes { 5 * plane s.width s.height ≤ length work.old }
    ensures { Lists s a x y (listing work.old f) (listing work.new result) }
{
    if a.edge_mask() == 6 {
        put_corner(work, 4 * lattice::plane(s) + (f.bends as usize), x, y);
        return Found {
            bends: f.bends + 1,
            ..f
        };
    }
    if a.node() {
        let p = lattice::plane(s);
        let at = 2 * p + lattice::corner_index(s, x, y);
        work[at] = f.nodes;
        put_corner(work, 3 * p + (f.nodes as usize), x, y);
        return Found {
            nodes: f.nodes + 1,
            ..f
        };
    }
    f
}

fn classify_row(s: Size, labels: &[u32], work: &mut [u32], f: Found, y: u32) -> Found
    requires map { Map s labels.now }
    requires row { y ≤ s.height }
    requires due { Due (Listed s labels.now) (row (suc s.width) 0 y) (listing work.old f) }
    ensures { Does (Listed s labels.now) (row (suc s.width) 0 y) (listing work.old f) (listing work.new result) }
{
    let mut a = lattice::look(s, labels, 0, y);
    let mut k = f;
    for x in 0..s.width + 1 {
        k = classify_corner(s, a, work, k, x, y);
        a = lattice::look_east(s, labels, a, x, y);
    }
    k
}

// All nodes and bends: their numbers and corners in the work store. How many there are.
fn classify(s: Size, labels: &[u32], work: &mut [u32]) -> Found
    requires map { Map s labels.now }
    requires planes { 5 * plane s.width s.height ≤ length work.old }
    ensures { Classified s labels.now work.old work.new result }
{
    let mut k = Found { nodes: 0, bends: 0 };
    for y in 0..s.height + 1 {
        k = classify_row(s, labels, work, k, y);
    }
    k
}

// TRACE: the segments from the nodes, then the rings.

// The segment that starts with the dart of w.
fn trace_segment(
    s: Size,
    a: Around,
    labels: &[u32],
    work: &mut [u32],
    nodes: &mut [u32],
    segments: &mut [u32],
    points: &mut [u32],
    c: Counts,
    w: Walker,
) -> Counts
    requires starts { Starts s labels.now w }
    requires around { a ≡ around_of (pic s labels.now) w.x w.y }
    requires unwalked { marked s.width s.height work.old (dart_of w) ≡ false }
    requires due { Due (Stage s labels.now) (dart_of w ∷ []) (state work.old nodes.old segments.old points.old c) }
    ensures { Does (Stage s labels.now) (dart_of w ∷ []) (state work.old nodes.old segments.old points.old c) (state work.new nodes.new segments.new points.new result) }
{
    let at = c.points as usize;
    put_point(points, at, w.x, w.y);
    let e = walk(s, labels, work, points, at, w);
    let j = join(s, a, work, nodes, SegId(c.segments), w, e);
    let count = e.steps + 1;
    let g = Segment {
        first: c.points,
        count,
        joined: j,
        left: a.left(w.d),
        right: a.right(w.d),
        leaves: w.d,
    };
    put_segment(segments, SegId(c.segments), g);
    Counts {
        segments: c.segments + 1,
        points: c.points + count,
        steps: c.steps + e.steps,
        ..c
    }
}

// The segment that starts with the dart of w, if that is an unwalked crack.
fn trace_dart(
    s: Size,
    a: Around,
    labels: &[u32],
    work: &mut [u32],
    nodes: &mut [u32],
    segments: &mut [u32],
    points: &mut [u32],
    c: Counts,
    w: Walker,
) -> Counts
    requires map { Map s labels.now }
    requires around { a ≡ around_of (pic s labels.now) w.x w.y }
    requires due { Due (Stage s labels.now) (dart_of w ∷ []) (state work.old nodes.old segments.old points.old c) }
    ensures { Does (Stage s labels.now) (dart_of w ∷ []) (state work.old nodes.old segments.old points.old c) (state work.new nodes.new segments.new points.new result) }
{
    if a.crack(w.d) && !is_visited(s, work, w) {
        return trace_segment(s, a, labels, work, nodes, segments, points, c, w);
    }
    c
}

// The segments that start at the corner p, in the directions `ways`.
fn trace_ways(
    s: Size,
    a: Around,
    labels: &[u32],
    work: &mut [u32],
    nodes: &mut [u32],
    segments: &mut [u32],
    points: &mut [u32],
    c: Counts,
    p: Point,
    ways: &[Dir],
) -> Counts
    requires map { Map s labels.now }
    requires around { a ≡ around_of (pic s labels.now) p.x p.y }
    requires due { Due (Stage s labels.now) (map (dart p.x p.y) ways.now) (state work.old nodes.old segments.old points.old c) }
    ensures { Does (Stage s labels.now) (map (dart p.x p.y) ways.now) (state work.old nodes.old segments.old points.old c) (state work.new nodes.new segments.new points.new result) }
{
    let mut k = c;
    for &d in ways {
        let w = Walker { x: p.x, y: p.y, d };
        k = trace_dart(s, a, labels, work, nodes, segments, points, k, w);
    }
    k
}

// The same from each of the n corners that stand in the work store from `at` on.
fn trace_from(
    s: Size,
    labels: &[u32],
    work: &mut [u32],
    nodes: &mut [u32],
    segments: &mut [u32],
    points: &mut [u32],
    c: Counts,
    at: usize,
    n: u32,
    ways: &[Dir],
) -> Counts
    requires map { Map s labels.now }
    requires standing { Standing s work.old at n }
    requires due { Due (Stage s labels.now) (starts (corners_at work.old at n) ways.now) (state work.old nodes.old segments.old points.old c) }
    ensures { Does (Stage s labels.now) (starts (corners_at work.old at n) ways.now) (state work.old nodes.old segments.old points.old c) (state work.new nodes.new segments.new points.new result) }
{
    let mut k = c;
    for i in 0..n {
        let p = corner_at(work, at + (i as usize));
        let a = lattice::look(s, labels, p.x, p.y);
        k = trace_ways(s, a, labels, work, nodes, segments, points, k, p, ways);
    }
    k
}

// The graph of a map whose nodes and bends f are listed in the work store. Planes 0 and 1 are used, whatever they hold; the lists stay, so that
// the graph can be counted first and then written.
pub fn trace(
    s: Size,
    labels: &[u32],
    work: &mut [u32],
    nodes: &mut [u32],
    segments: &mut [u32],
    points: &mut [u32],
    f: Found,
) -> Counts
    requires map { Map s labels.now }
    requires noded { Noded s labels.now work.old }
    requires tallied { Tallied s labels.now f }
    ensures { Extracted s labels.now 2 work.old nodes.old segments.old points.old work.new nodes.new segments.new points.new result }
{
    let p = lattice::plane(s);
    store::fill(work, 0, 2 * p, 0);
    put_nodes(work, 3 * p, nodes, f.nodes);
    let c = Counts {
        nodes: f.nodes,
        bends: f.bends,
        segments: 0,
        points: 0,
        steps: 0,
    };
    // the open segments from the nodes, in number order; what is left are the rings, each from the E crack of its first bend
    let k = trace_from(
        s,
        labels,
        work,
        nodes,
        segments,
        points,
        c,
        3 * p,
        f.nodes,
        &Dir::ALL,
    );
    trace_from(
        s,
        labels,
        work,
        nodes,
        segments,
        points,
        k,
        4 * p,
        f.bends,
        &[Dir::E],
    )
}

// The whole graph of a map. Planes 0 to 4 of the work store are used, whatever they hold.
pub fn extract(
    s: Size,
    labels: &[u32],
    work: &mut [u32],
    nodes: &mut [u32],
    segments: &mut [u32],
    points: &mut [u32],
) -> Counts
    requires map { Map s labels.now }
    requires planes { 5 * plane s.width s.height ≤ length work.old }
    ensures { Extracted s labels.now 5 work.old nodes.old segments.old points.old work.new nodes.new segments.new points.new result }
{
    let f = classify(s, labels, work);
    trace(s, labels, work, nodes, segments, points, f)
}
