// The contours of the named islands, found in the order of their earliest steps, and strung by island.
ghost use Rattle.std.specs.Prelude.{◌≡◌, suc, ◌+◌, ◌*◌, ◌<◌, ◌≤◌};
ghost use Rattle.rules.specs.Picture.{Dart, dart};
ghost use Rattle.rules.specs.declared.Dir.TheVariants.{E};
ghost use Rattle.benches.proofs.Scan.{Next};
ghost use Rattle.lattice.specs.Size.{Sides, pic};
ghost use Rattle.lattice.specs.Planes.{plane};
ghost use Rattle.lattice.specs.Walker.{dart_of};
ghost use Rattle.assemble.specs.Words.{Flanked};
ghost use Rattle.listing.specs.Marks.{mark_in};
ghost use Rattle.listing.specs.Starts.{Forth};
ghost use Rattle.listing.specs.Finding.{isle_at, Due, Finds, Threadable, Threads};

use crate::{marks, starts};
use face::contours::slot;
use lattice::{NONE, Size, Walker};
use rules::Dir;

// The word of the mark of a step east or south.
fn mark_at(s: Size, w: Walker) -> usize
    requires sides { Sides s }
    requires forth { Forth s w }
    ensures { (result ≡ mark_in s (dart_of w)) × (result < 2 * plane s.width s.height) }
{
    let at = if w.d == Dir::E { 0 } else { lattice::plane(s) };
    slot(s, at, w.x, w.y)
}

// The first pixel of the island on the left of a step, by the numbers in plane 5.
fn island(s: Size, work: &[u32], w: Walker) -> u32
    requires sides { Sides s }
    requires flanked { Flanked s w }
    ensures { result ≡ isle_at s work.now w }
{
    let p = assemble::left_pixel(s, w);
    store::get(work, 5 * lattice::plane(s) + p)
}

// The contour that starts with w, if w is a side of a named island that no contour before has: its start is listed in plane 2, behind
// the k that are there.
fn visit(s: Size, labels: &[u32], work: &mut [u32], k: usize, w: Walker) -> usize
    requires due { Due s labels.now (dart_of w) k work.old }
    requires forth { Forth s w }
    ensures { (b' : Dart) → Next (pic s labels.now) (dart_of w) b' → Finds s labels.now (dart_of w) k work.old b' result work.new }
{
    let a = lattice::look(s, labels, w.x, w.y);
    let l = a.left(w.d);
    if s.paints <= l.0 || !a.crack(w.d) || work[mark_at(s, w)] != 0 {
        return k;
    }
    let plane = lattice::plane(s);
    let f = island(s, work, w);
    if store::get(work, 4 * plane + (f as usize)) == NONE {
        return k;
    }
    marks::mark_contour(s, labels, work, w, l);
    store::put(work, 2 * plane + k, starts::encode(s, w));
    k + 1
}

// East and south along a row of corners.
fn scan_row(s: Size, labels: &[u32], work: &mut [u32], k: usize, y: u32) -> usize
    requires due { Due s labels.now (dart 0 y E) k work.old }
    requires row { y ≤ s.height }
    ensures { Finds s labels.now (dart 0 y E) k work.old (dart 0 (y + 1) E) result work.new }
{
    let mut n = k;
    for x in 0..s.width + 1 {
        n = visit(s, labels, work, n, Walker { x, y, d: Dir::E });
        n = visit(s, labels, work, n, Walker { x, y, d: Dir::S });
    }
    n
}

// All contours of the named islands; how many there are.
pub fn scan(s: Size, labels: &[u32], work: &mut [u32]) -> usize
    requires { Due s labels.now (dart 0 0 E) 0 work.old }
    ensures { Finds s labels.now (dart 0 0 E) 0 work.old (dart 0 (suc s.height) E) result work.new }
{
    let mut n: usize = 0;
    for y in 0..s.height + 1 {
        n = scan_row(s, labels, work, n, y);
    }
    n
}

// The contours strung by island: each goes to the front, the last one first. The word of an island's first pixel in plane 4 is the
// number of its first contour, that of a contour in plane 3 the next one's; they are counted from 1, and 0 is none.
pub fn thread(s: Size, work: &mut [u32], count: usize)
    requires { Threadable s count work.old }
    ensures { Threads s count work.old 0 work.new }
{
    let plane = lattice::plane(s);
    for k in (0..count).rev() {
        let w = starts::decode(s, store::get(work, 2 * plane + k));
        let head = 4 * plane + (island(s, work, w) as usize);
        let first = store::get(work, head);
        store::put(work, 3 * plane + k, first);
        store::put(work, head, k as u32 + 1);
    }
}
