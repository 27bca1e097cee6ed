// The faces of a map: its islands, their contours, and how many there are.
#![tactic(auto)]

pub mod contours;
pub mod islands;
pub mod order;

ghost use Rattle.std.specs.Prelude.{◌*◌, ◌≤◌, length};
ghost use Rattle.lattice.specs.Size.{Map};
ghost use Rattle.lattice.specs.Planes.{plane};
ghost use Rattle.face.specs.Counts.{Counted};

use lattice::Size;

#[derive(Clone, Copy)]
pub struct Counts {
    pub references: u32,
    pub contours: u32,
    pub faces: u32,
}

// How many references, contours and faces a map has. The numbers of the islands stay in plane 5 of the work store; plane 7 is used.
pub fn count(s: Size, labels: &[u32], work: &mut [u32]) -> Counts
    requires map { Map s labels.now }
    requires room { 8 * plane s.width s.height ≤ length work.old }
    ensures { Counted s labels.now work.old result work.new }
{
    let faces = islands::islands(s, labels, work);
    let plane = lattice::plane(s);
    let marks = 7 * plane;
    store::fill(work, marks, plane, 0);
    let found = contours::count(s, labels, work, marks);
    Counts {
        references: found.references,
        contours: found.contours,
        faces,
    }
}
