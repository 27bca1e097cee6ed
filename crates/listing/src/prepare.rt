// The work store made ready for the writer: the named islands, with their contours strung.
ghost use Rattle.std.specs.Prelude.{◌*◌, ◌≤◌, length};
ghost use Rattle.lattice.specs.Size.{Map};
ghost use Rattle.lattice.specs.Planes.{plane};
ghost use Rattle.listing.specs.Preparing.{Chosen, Prepared};

use crate::{names, scan};
use lattice::Size;

// The named islands in their order in plane 6, and how many there are. Plane 4 has 0 for each of them, and the none word for the other
// painted islands; plane 5 has the first pixel of each pixel's island.
fn choose(s: Size, labels: &[u32], work: &mut [u32], named: &[u32]) -> usize
    requires map { Map s labels.now }
    requires room { 8 * plane s.width s.height ≤ length work.old }
    ensures { Chosen s labels.now named.now work.old result work.new }
{
    let plane = lattice::plane(s);
    let heads = 4 * plane;
    let list = 6 * plane;
    let marks = 7 * plane;
    let _ = face::islands::islands(s, labels, work);
    let all = assemble::list_islands(labels, work, s.paints, s.bound, heads, 5 * plane, list);
    face::order::sort(labels, work, list, all);
    store::fill(work, marks, all, 0);
    names::mark_names(labels, work, list, marks, all, named);
    names::keep_named(work, heads, list, marks, all)
}

// The named islands in their order in plane 6, with their contours strung from plane 4 on; how many islands.
pub fn prepare(s: Size, labels: &[u32], work: &mut [u32], named: &[u32]) -> usize
    requires map { Map s labels.now }
    requires room { 8 * plane s.width s.height ≤ length work.old }
    ensures { Prepared s labels.now named.now work.old result work.new }
{
    let n = choose(s, labels, work, named);
    store::fill(work, 0, 2 * lattice::plane(s), 0);
    let count = scan::scan(s, labels, work);
    scan::thread(s, work, count);
    n
}
