// The faces of a graph that stands in its stores: its contours are found in order, strung by island, and written face by face.
#![tactic(auto)]

ghost use Rattle.std.specs.Prelude.{◌≡◌, true, false, List, [], ◌∷◌, suc, ◌+◌, ◌*◌, ◌-◌, ◌/◌, ◌%◌, ◌<◌, ◌≤◌, length};
ghost use Rattle.std.proofs.lemmas.List.Edits.{sets};
ghost use Rattle.rules.specs.Picture.{code};
ghost use Rattle.rules.specs.Face.{Face};
ghost use Rattle.lattice.specs.Size.{Map, pic};
ghost use Rattle.assemble.specs.Words.{word_in, region_in, open_in, heading_in, end_in, node_in, next_in, EndsAt, dir_to, step_in, first_in, Flanked, pixel_in, island_in, Starts};
ghost use Rattle.assemble.specs.Trails.{word_of, Named, Linkable};
ghost use Rattle.assemble.specs.Round.{Closes, Followed};
ghost use Rattle.assemble.specs.Groups.{Pages, Leaders, linked, Threadable, ThreadsAll};
ghost use Rattle.assemble.specs.Writing.{Going, Runs, Chain, WritesChain, FaceDue, WritesFace, Ordered, Orderly, AllWritten};
ghost use Rattle.assemble.specs.Assembly.{Stands, Assembles};
ghost use Rattle.assemble.specs.Stage.{Begun, Through, RingBegun, RingThrough, Readied, FindsAll};

use lattice::{NONE, NodeId, OUTSIDE, RegionId, Size, Walker};
use rules::Dir;

// A word from here on leads to another contour of the same island.
// Kept, point 1: the mark stands in the trail's word itself, since the work store has one word for a reference (fixed memory).
const LINK: u32 = 2147483648;

// The words of a segment's record: its first point and how many there are, its nodes, the labels on its sides, its first and last direction.
const FIRST: u32 = 0;

const COUNT: u32 = 1;

const START: u32 = 2;

const END: u32 = 3;

const LEFT: u32 = 4;

const RIGHT: u32 = 5;

const LEAVES: u32 = 6;

const ARRIVES: u32 = 7;

// The words of a node's record: its corner, and the first of its four out entries.
const X: u32 = 0;

const Y: u32 = 1;

const OUT: u32 = 2;

// A segment with a way to go along it: twice its number, and one more where the way is reversed.
#[derive(Clone, Copy, Debug, PartialEq, Eq)]
struct Reference(u32);

impl Reference {
    // The one that a word names, if it does.
    fn named(word: u32) -> Option<Reference>
        ensures { (word_of result ≡ word) × Named result }
    {
        if word == NONE {
            None
        } else {
            Some(Reference(word))
        }
    }

    fn segment(self) -> usize
        ensures { result ≡ self.0 / 2 }
    {
        (self.0 / 2) as usize
    }

    fn is_reversed(self) -> bool
        ensures { (result ≡ true → self.0 % 2 ≡ 1) × (result ≡ false → self.0 % 2 ≡ 0) }
    {
        self.0 % 2 == 1
    }
}

// A map and a graph of it, in their stores.
#[derive(Clone, Copy)]
struct Graph<'a> {
    size: Size,
    labels: &'a [u32],
    nodes: &'a [u32],
    segments: &'a [u32],
    points: &'a [u32],
    ghost map: { Map size labels.now },
}

// Where the parts of the work store begin: the trail of the contours, the heads of the islands, the numbers of the pixels, the list of
// the islands, and the contours by their last references.
#[derive(Clone, Copy)]
struct Parts {
    trail: usize,
    heads: usize,
    ids: usize,
    list: usize,
    lasts: usize,
}

// A contour as it was written: how many references, and the first one of the next contour of its island.
#[derive(Clone, Copy, Debug, PartialEq, Eq)]
struct Run {
    count: usize,
    next: Option<Reference>,
}

// How many contours and references are written.
#[derive(Clone, Copy, Debug, PartialEq, Eq)]
pub struct Done {
    pub contours: usize,
    pub references: usize,
}

// The direction of a unit step from the corner (x, y) to the corner (u, v).
#[tactic(auto, unfolding(crate::specs::Words::dir_to))]
fn dir_from_delta(x: u32, y: u32, u: u32, v: u32) -> Dir
    ensures { result ≡ dir_to x y u v }
{
    if v < y {
        Dir::N
    } else if x < u {
        Dir::E
    } else if y < v {
        Dir::S
    } else {
        Dir::W
    }
}

// The step from the point i to the point j.
pub fn step(points: &[u32], i: usize, j: usize) -> Walker
    requires from { i ≤ 8589934592 }
    requires to { j ≤ 8589934592 }
    ensures { result ≡ step_in points.now i j }
{
    let x = store::get(points, 2 * i);
    let y = store::get(points, 2 * i + 1);
    let d = dir_from_delta(
        x,
        y,
        store::get(points, 2 * j),
        store::get(points, 2 * j + 1),
    );
    Walker { x, y, d }
}

// The pixel on the left of a step.
pub fn left_pixel(s: Size, w: Walker) -> usize
    requires { Flanked s w }
    ensures { (result ≡ pixel_in s w) × (result ≤ 536870912) }
{
    match w.d {
        Dir::N => lattice::cell(s.width, w.x - 1, w.y - 1),
        Dir::E => lattice::cell(s.width, w.x, w.y - 1),
        Dir::S => lattice::cell(s.width, w.x, w.y),
        Dir::W => lattice::cell(s.width, w.x - 1, w.y),
    }
}

impl<'a> Graph<'a> {
    // A word of the record of the reference's segment.
    fn word(self, r: Reference, k: u32) -> u32
        ensures { result ≡ word_in self.entry.segments.now r.0 k }
    {
        store::get(self.segments, 8 * r.segment() + (k as usize))
    }

    // The label on its left.
    fn region(self, r: Reference) -> RegionId
        ensures { result.0 ≡ region_in self.entry.segments.now r.0 }
    {
        RegionId(self.word(r, if r.is_reversed() { RIGHT } else { LEFT }))
    }

    // Whether its segment goes from node to node.
    fn is_open(self, r: Reference) -> bool
        ensures { result ≡ open_in self.entry.segments.now r.0 }
    {
        self.word(r, START) != NONE
    }

    // The direction in which it arrives: a reversed one goes against its segment's first step.
    #[tactic(auto, unfolding(crate::specs::Words::heading_in))]
    fn heading(self, r: Reference) -> Dir
        ensures { result ≡ heading_in self.entry.segments.now r.0 }
    {
        if r.is_reversed() {
            lattice::direction(self.word(r, LEAVES) % 4).back()
        } else {
            lattice::direction(self.word(r, ARRIVES) % 4)
        }
    }

    // The node that it ends at.
    fn end_node(self, r: Reference) -> NodeId
        ensures { result.0 ≡ end_in self.entry.segments.now r.0 }
    {
        NodeId(self.word(r, if r.is_reversed() { START } else { END }))
    }

    // A word of the record of the node.
    fn node_word(self, n: NodeId, k: u32) -> u32
        ensures { result ≡ node_in self.entry.nodes.now n.0 k }
    {
        store::get(self.nodes, 6 * (n.0 as usize) + (k as usize))
    }

    // The reference that leaves the node in the direction d.
    fn out(self, n: NodeId, d: Dir) -> Reference
        ensures { result.0 ≡ node_in self.entry.nodes.now n.0 (2 + code d) }
    {
        Reference(self.node_word(n, OUT + d.code()))
    }

    // The one after it on its contour.
    fn next(self, r: Reference) -> Reference
        requires { EndsAt self.size self.nodes.now self.segments.now r.0 }
        ensures { result.0 ≡ next_in (pic self.entry.size self.entry.labels.now) self.entry.nodes.now self.entry.segments.now r.0 }
    {
        let n = self.end_node(r);
        let x = self.node_word(n, X);
        let y = self.node_word(n, Y);
        let a = lattice::look(self.size, self.labels, x, y);
        let d = face::contours::successor(a, self.heading(r), self.region(r));
        self.out(n, d)
    }

    // Its first step.
    fn first_step(self, r: Reference) -> Walker
        requires { 2 ≤ word_in self.segments.now r.0 1 }
        ensures { result ≡ first_in self.entry.segments.now self.entry.points.now r.0 }
    {
        let first = self.word(r, FIRST) as usize;
        if r.is_reversed() {
            let last = first + (self.word(r, COUNT) as usize) - 1;
            step(self.points, last, last - 1)
        } else {
            step(self.points, first, first + 1)
        }
    }

    // The first pixel of the island that its contour bounds: the number of the pixel on the left of its first step, by those in work
    // from ids on.
    fn island(self, work: &[u32], ids: usize, r: Reference) -> u32
        requires starts { Starts self.size self.segments.now self.points.now r.0 }
        requires low { ids ≤ 4611686018427387904 }
        ensures { result ≡ island_in self.entry.size self.entry.segments.now self.entry.points.now work.now ids r.0 }
    {
        let p = left_pixel(self.size, self.first_step(r));
        store::get(work, ids + p)
    }
}

// THE CONTOURS are found

// Around the contour of r: in the trail each reference gets the next one in its place. The last one.
fn follow(g: Graph, work: &mut [u32], trail: usize, r: Reference) -> Reference
    requires closes { Closes g.size g.labels.now g.nodes.now g.segments.now r.0 }
    requires low { trail ≤ 4611686018427387904 }
    ensures { Followed g.entry.size g.entry.labels.now g.entry.nodes.now g.entry.segments.now trail r.0 work.old work.new result.0 }
{
    let mut c = r;
    loop {
        let next = g.next(c);
        store::put(work, trail + (c.0 as usize), next.0);
        if next == r {
            return c;
        }
        c = next;
    }
}

// All contours of open segments, n is twice the number of segments: each is walked from its first reference that the trail does not have
// yet. Those of painted regions are listed by their last references; how many there are.
fn discover(g: Graph, work: &mut [u32], p: Parts, n: u32) -> usize
    requires { Begun g.size g.labels.now g.nodes.now g.segments.now p.trail p.lasts n 0 0 work.old }
    ensures { Through g.entry.size g.entry.labels.now g.entry.nodes.now g.entry.segments.now p.trail p.lasts n work.old n result work.new }
{
    let mut k: usize = 0;
    for i in 0..n {
        let r = Reference(i);
        let region = g.region(r);
        if g.is_open(r) && region.0 != OUTSIDE && store::get(work, p.trail + (i as usize)) == NONE {
            let last = follow(g, work, p.trail, r);
            if region.0 < g.size.paints {
                store::put(work, p.lasts + k, last.0);
                k += 1;
            }
        }
    }
    k
}

// Each side of a ring, which is a contour by itself. Those of painted regions are listed after the k contours that are there.
fn list_rings(g: Graph, work: &mut [u32], p: Parts, k: usize, n: u32) -> usize
    requires { RingBegun g.size g.segments.now p.trail p.lasts n 0 k work.old }
    ensures { RingThrough g.entry.size g.entry.segments.now p.trail p.lasts n k work.old n result work.new }
{
    let mut j = k;
    for i in 0..n {
        let r = Reference(i);
        if !g.is_open(r) {
            store::put(work, p.trail + (i as usize), i);
            let region = g.region(r);
            if region.0 < g.size.paints {
                store::put(work, p.lasts + j, i);
                j += 1;
            }
        }
    }
    j
}

// All contours of painted regions, in order of discovery, by their last references; how many there are. In the trail each reference has
// the next one of its contour.
fn find_contours(g: Graph, work: &mut [u32], p: Parts, n: u32) -> usize
    requires { Readied g.size g.labels.now g.nodes.now g.segments.now p.trail p.lasts n work.old }
    ensures { FindsAll g.entry.size g.entry.labels.now g.entry.nodes.now g.entry.segments.now p.trail p.lasts n work.old result work.new }
{
    let k = discover(g, work, p, n);
    list_rings(g, work, p, k, n)
}

// THE ISLANDS are listed, and their contours strung

// The first pixels of all painted islands, row by row, listed in work from list on, with no contour yet at their heads, from heads on;
// how many there are. The numbers of the pixels stand from ids on.
pub fn list_islands(
    labels: &[u32],
    work: &mut [u32],
    paints: u32,
    bound: u32,
    heads: usize,
    ids: usize,
    list: usize,
) -> usize
    requires { Pages heads ids list (length labels.now) work.old }
    ensures { Leaders paints bound heads ids list labels.now work.old (length labels.now) result work.new }
{
    let mut m: usize = 0;
    for (p, &label) in labels.iter().enumerate() {
        if lattice::seen(bound, label) < paints && store::get(work, ids + p) as usize == p {
            store::put(work, list + m, p as u32);
            store::put(work, heads + p, NONE);
            m += 1;
        }
    }
    m
}

// The word at `last` leads on to the contour that starts with `next`, if there is one.
fn link(work: &mut [u32], last: usize, next: Option<Reference>)
    requires { Linkable next }
    ensures { work.new ≡ linked work.old last (word_of next) }
{
    if let Some(r) = next {
        store::put(work, last, LINK + r.0);
    }
}

// The contours that are listed, strung by island: each goes to the front, the last one first, so that they keep their order. The word of
// a pixel's head is the first reference of its first contour; the word of a contour's last reference leads on to the next one.
fn thread(g: Graph, work: &mut [u32], p: Parts, count: usize)
    requires { Threadable g.size g.segments.now g.points.now p.trail p.heads p.ids p.lasts count work.old }
    ensures { ThreadsAll g.entry.size g.entry.segments.now g.entry.points.now p.trail p.heads p.ids p.lasts count work.old 0 work.new }
{
    for k in (0..count).rev() {
        let last = p.trail + (store::get(work, p.lasts + k) as usize);
        let r = Reference(store::get(work, last));
        let head = p.heads + (g.island(work, p.ids, r) as usize);
        let first = Reference::named(store::get(work, head));
        link(work, last, first);
        store::put(work, head, r.0);
    }
}

// ALL IS WRITTEN

// The references of the contour that starts with r, along the trail, from at on.
fn write_references(
    work: &[u32],
    trail: usize,
    references: &mut [u32],
    at: usize,
    r: Reference,
) -> Run
    requires going { Going trail work.now r.0 }
    requires trail { trail ≤ length work.now }
    requires low { at ≤ 4294967295 }
    ensures { Runs trail work.now at r.0 references.old result references.new }
{
    let mut q = r;
    let mut count: usize = 0;
    loop {
        store::put(references, at + count, q.0);
        count += 1;
        let word = store::get(work, trail + (q.0 as usize));
        if word == r.0 {
            return Run { count, next: None };
        }
        if LINK <= word {
            return Run {
                count,
                next: Some(Reference(word - LINK)),
            };
        }
        q = Reference(word);
    }
}

// The record of the contour c.
fn put_contour(contours: &mut [u32], c: usize, first: u32, count: u32)
    requires { c ≤ 4294967295 }
    ensures { contours.new ≡ sets contours.old (2 * c) (first ∷ count ∷ []) }
{
    store::put_all(contours, 2 * c, [first, count]);
}

// The contours of one island, from the one that starts with `first` on, after those that are done.
fn write_contours(
    work: &[u32],
    trail: usize,
    references: &mut [u32],
    contours: &mut [u32],
    first: Option<Reference>,
    done: Done,
) -> Done
    requires chain { Chain trail work.now (word_of first) done }
    requires named { Named first }
    ensures { WritesChain trail work.now (word_of first) done references.old contours.old result references.new contours.new }
{
    let mut d = done;
    let mut next = first;
    while let Some(r) = next {
        let at = d.references;
        let run = write_references(work, trail, references, at, r);
        put_contour(contours, d.contours, at as u32, run.count as u32);
        d = Done {
            contours: d.contours + 1,
            references: at + run.count,
        };
        next = run.next;
    }
    d
}

// The record of the face f.
fn put_face(faces: &mut [u32], f: usize, region: RegionId, first: u32, count: u32, x: u32, y: u32)
    requires { f ≤ 4294967295 }
    ensures { faces.new ≡ sets faces.old (5 * f) (region.0 ∷ first ∷ count ∷ x ∷ y ∷ []) }
{
    store::put_all(faces, 5 * f, [region.0, first, count, x, y]);
}

// The face f by its first pixel in the list: its contours, and its record.
fn write_face(
    g: Graph,
    work: &[u32],
    p: Parts,
    references: &mut [u32],
    contours: &mut [u32],
    faces: &mut [u32],
    f: usize,
    done: Done,
) -> Done
    requires { FaceDue g.size.width g.labels.now p.trail p.heads p.list work.now f done }
    ensures { WritesFace g.entry.size.width g.entry.labels.now p.trail p.heads p.list work.now f done references.old contours.old faces.old result references.new contours.new faces.new }
{
    let width = g.size.width;
    let pixel = store::get(work, p.list + f);
    let at = pixel as usize;
    let first = Reference::named(store::get(work, p.heads + at));
    let d = write_contours(work, p.trail, references, contours, first, done);
    let c = done.contours;
    let n = d.contours - c;
    let region = RegionId(store::get(g.labels, at));
    let x = pixel % width;
    let y = pixel / width;
    put_face(faces, f, region, c as u32, n as u32, x, y);
    d
}

// All faces, m of them: how much is written.
fn write_faces(
    g: Graph,
    work: &[u32],
    p: Parts,
    references: &mut [u32],
    contours: &mut [u32],
    faces: &mut [u32],
    m: usize,
) -> Done
    requires { Orderly g.size.width g.labels.now p.trail p.heads p.list m work.now }
    ensures { (fs : List Face) → Ordered g.entry.size.width g.entry.labels.now p.trail p.heads p.list m work.now fs → AllWritten g.entry.size.width fs references.old contours.old faces.old result references.new contours.new faces.new }
{
    let mut done = Done {
        contours: 0,
        references: 0,
    };
    for f in 0..m {
        done = write_face(g, work, p, references, contours, faces, f, done);
    }
    done
}

// The faces of the graph in its stores, n segments: references, contours and faces, from the front of each store, and how many of the
// first two. The plane 5 of the work store holds the first pixel of each pixel's island; the others are used, whatever they hold: 0 to 3
// for the trail, 4 for the heads of the islands, 6 for their list, 7 for the contours.
pub fn assemble(
    s: Size,
    labels: &[u32],
    nodes: &[u32],
    segments: &[u32],
    points: &[u32],
    n: u32,
    work: &mut [u32],
    references: &mut [u32],
    contours: &mut [u32],
    faces: &mut [u32],
) -> Done
    requires map { Map s labels.now }
    requires stands { Stands s labels.now nodes.now segments.now points.now n work.old }
    ensures { Assembles s labels.now nodes.now segments.now points.now n work.old references.old contours.old faces.old result work.new references.new contours.new faces.new }
{
    let g = Graph {
        size: s,
        labels,
        nodes,
        segments,
        points,
    };
    let plane = lattice::plane(s);
    let p = Parts {
        trail: 0,
        heads: 4 * plane,
        ids: 5 * plane,
        list: 6 * plane,
        lasts: 7 * plane,
    };
    store::fill(work, p.trail, 2 * (n as usize), NONE);
    let count = find_contours(g, work, p, 2 * n);
    let m = list_islands(labels, work, s.paints, s.bound, p.heads, p.ids, p.list);
    thread(g, work, p, count);
    face::order::sort(labels, work, p.list, m);
    write_faces(g, work, p, references, contours, faces, m)
}
