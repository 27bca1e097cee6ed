// How much veneer is in each piece: each face's sum over the steps of its contours, y for a step east and minus y for a step west.
#![tactic(auto)]

ghost use Rattle.std.specs.Prelude.{◌≡◌, suc, ◌+◌, ◌*◌, ◌<◌, ◌≤◌, length, get_or, set, pos, nat_abs, ◌+ℤ◌};
ghost use Rattle.lattice.specs.Size.{Sides, Map, Corner};
ghost use Rattle.lattice.specs.Planes.{plane};
ghost use Rattle.lattice.specs.Walker.{dart_of};
ghost use Rattle.face.specs.Contours.{Starts};
ghost use Rattle.assemble.specs.Words.{Flanked};
ghost use Rattle.calls.specs.Outcome.{map_of};
ghost use Rattle.calls.specs.Steps.{GraphCounted, IslandsNumbered};
ghost use Rattle.veneer.specs.Sums.{signed, veneer as veneer_of};
ghost use Rattle.veneer.specs.Steps.{Rounded, Numberable, Numbers, face_in, Fits, Measuring, Measures, MeasuredAll, firsts_of, MeasuresFaces, Answered, measured_as};

use calls::{Counts, Refused};
use face::contours::Found;
use lattice::{RegionId, Size, Walker};
use rules::{Dir, Refusal};

// ONE CONTOUR

// How many of a contour's steps lead to nodes, and its sum: y for each step east, minus y for each step west.
#[derive(Clone, Copy)]
struct Round {
    nodes: u32,
    sum: i64,
}

// The sum t with the step ahead of c.
fn risen(t: i64, c: Walker) -> i64
    requires small { nat_abs t ≤ 4611686018427387904 }
    requires low { c.y ≤ 16384 }
    ensures { result ≡ t +ℤ signed (dart_of c) }
{
    match c.d {
        Dir::E => t + i64::from(c.y),
        Dir::W => t - i64::from(c.y),
        Dir::N | Dir::S => t,
    }
}

// Around the contour that the dart of w is a step of. Each of its steps east is marked.
fn contour(
    s: Size,
    labels: &[u32],
    work: &mut [u32],
    at: usize,
    w: Walker,
    region: RegionId,
) -> Round
    requires starts { Starts s labels.now w region.0 }
    requires room { at + plane s.width s.height ≤ length work.old }
    ensures { Rounded s labels.now at w work.old work.new result }
{
    let mut c = w;
    let mut n: u32 = 0;
    let mut t: i64 = 0;
    loop {
        face::contours::mark_east(s, work, at, c);
        t = risen(t, c);
        let m = c.moved();
        let a = lattice::look(s, labels, m.x, m.y);
        n += u32::from(a.node());
        c = face::contours::turn(c, a, region);
        if c == w {
            return Round { nodes: n, sum: t };
        }
    }
}

// ALL CONTOURS, each added to its face

// t added to the number i, or nothing where the store has no such number.
fn add(numbers: &mut [i64], i: usize, t: i64)
    requires { nat_abs (get_or numbers.old i (pos 0)) + nat_abs t < 9223372036854775808 }
    ensures { numbers.new ≡ set numbers.old i (get_or numbers.old i (pos 0) +ℤ t) }
{
    if i < numbers.len() {
        numbers[i] += t;
    }
}

// The sum t of a contour added to that of the face on the left of its step ahead of w.
fn add_sum(s: Size, work: &[u32], sums: &mut [i64], w: Walker, t: i64)
    requires sides { Sides s }
    requires flanked { Flanked s w }
    requires fits { Fits sums.old (face_in s work.now w) t }
    ensures { sums.new ≡ set sums.old (face_in s work.now w) (get_or sums.old (face_in s work.now w) (pos 0) +ℤ t) }
{
    let plane = lattice::plane(s);
    let q = assemble::left_pixel(s, w);
    let p = store::get(work, 5 * plane + q) as usize;
    let k = store::get(work, 4 * plane + p) as usize;
    add(sums, k, t);
}

// The contour of the dart that goes east from (x, y), if its region is painted and no contour before has it.
fn find(
    s: Size,
    labels: &[u32],
    work: &mut [u32],
    sums: &mut [i64],
    at: usize,
    f: Found,
    x: u32,
    y: u32,
) -> Found
    requires map { Map s labels.now }
    requires corner { Corner s x y }
    requires measuring { Measuring s labels.now at x y work.old sums.old f }
    ensures { Measures s labels.now at (suc x) y work.old sums.old work.new sums.new result }
{
    let a = lattice::look(s, labels, x, y);
    let l = a.left(Dir::E);
    if s.paints <= l.0 || !a.crack(Dir::E) || work[face::contours::slot(s, at, x, y)] != 0 {
        return f;
    }
    let w = Walker { x, y, d: Dir::E };
    let r = contour(s, labels, work, at, w, l);
    add_sum(s, work, sums, w, r.sum);
    Found {
        contours: f.contours + 1,
        references: f.references + face::contours::references(r.nodes),
    }
}

// The contours found along a row of corners.
fn find_row(
    s: Size,
    labels: &[u32],
    work: &mut [u32],
    sums: &mut [i64],
    at: usize,
    f: Found,
    y: u32,
) -> Found
    requires map { Map s labels.now }
    requires row { y ≤ s.height }
    requires measuring { Measuring s labels.now at 0 y work.old sums.old f }
    ensures { Measures s labels.now at 0 (suc y) work.old sums.old work.new sums.new result }
{
    let mut g = f;
    for x in 0..s.width {
        g = find(s, labels, work, sums, at, g, x, y);
    }
    g
}

// The contours of all painted regions and their references, with marks in the plane that starts at `at`, and the sum of each face.
fn sum_all(s: Size, labels: &[u32], work: &mut [u32], sums: &mut [i64], at: usize) -> Found
    requires map { Map s labels.now }
    requires measuring { Measuring s labels.now at 0 0 work.old sums.old (record { contours = 0; references = 0 }) }
    ensures { MeasuredAll s labels.now at work.old sums.old work.new sums.new result }
{
    let mut g = Found {
        contours: 0,
        references: 0,
    };
    for y in 0..=s.height {
        g = find_row(s, labels, work, sums, at, g, y);
    }
    g
}

// THE FACES, numbered by their first pixels

// The word of each of the m pixels that are listed is its place in the list, in the part from `heads` up to `ids`; the first m sums are 0.
fn number_faces(work: &mut [u32], sums: &mut [i64], heads: usize, ids: usize, list: usize, m: usize)
    requires { Numberable heads ids list m work.old sums.old }
    ensures { Numbers heads ids list m work.old sums.old work.new sums.new }
{
    for k in 0..m {
        let p = store::get(work, list + k) as usize;
        store::put(work, heads + p, k as u32);
        sums[k] = 0;
    }
}

// The sum of each face, in face order, into a store that holds them all, and how many contours and references there are. Plane 5 of the work
// store has the first pixel of each pixel's island; 4 is used for the faces' numbers, 6 for the list of the islands, 7 for the marks.
fn measure(s: Size, labels: &[u32], work: &mut [u32], sums: &mut [i64]) -> Found
    requires map { Map s labels.now }
    requires planes { 8 * plane s.width s.height ≤ length work.old }
    requires islands { IslandsNumbered s labels.now work.old }
    requires sums { length (firsts_of s labels.now) ≤ length sums.old }
    ensures { MeasuresFaces s labels.now work.old sums.old work.new sums.new result }
{
    let plane = lattice::plane(s);
    let heads = 4 * plane;
    let ids = 5 * plane;
    let list = 6 * plane;
    let marks = 7 * plane;
    let m = assemble::list_islands(labels, work, s.paints, s.bound, heads, ids, list);
    face::order::sort(labels, work, list, m);
    number_faces(work, sums, heads, ids, list, m);
    store::fill(work, marks, plane, 0);
    sum_all(s, labels, work, sums, marks)
}

// THE CALL

// The counts as `size` has them, refused where the store of sums holds too few; the contours are then counted alone.
fn measured(
    s: Size,
    labels: &[u32],
    work: &mut [u32],
    sums: &mut [i64],
    c: graph::Counts,
) -> Result<Counts, Refused>
    requires map { Map s labels.now }
    requires planes { 8 * plane s.width s.height ≤ length work.old }
    requires graph { GraphCounted s labels.now work.old c }
    ensures { Answered s labels.now work.old sums.old work.new sums.new result }
{
    let faces = face::islands::islands(s, labels, work);
    let room = calls::short(Refusal::ShortFaces, sums.len(), faces);
    if room.is_ok() {
        let found = measure(s, labels, work, sums);
        let f = face::Counts {
            references: found.references,
            contours: found.contours,
            faces,
        };
        return calls::whole_counts(c, f).answer(room);
    }
    let f = face::count(s, labels, work);
    calls::whole_counts(c, f).answer(room)
}

// How much veneer is in each piece: the sum of each face, in face order.
pub fn veneer(
    s: Size,
    labels: &[u32],
    work: &mut [u32],
    sums: &mut [i64],
) -> Result<Counts, Refused>
    ensures { measured_as result work.new sums.new ≡ veneer_of (map_of s labels.now) work.old sums.old }
{
    calls::check_map(s, labels, work)?;
    let c = calls::count_graph(s, labels, work);
    let answer = measured(s, labels, work, sums, c);
    calls::clear(s, work);
    answer
}
