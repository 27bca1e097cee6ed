// The mark of a contour, from the words of the stores: what goes east along it, by y, against what goes west. A word past the end of a store is read as 0.
ghost use Rattle.std.specs.Prelude.{◌≡◌, ◌+◌, ◌<◌, ℕ};
ghost use Rattle.text.specs.Mark.{way_of, eastward, step_east, summed as summed_of, segment_east, reference_east, contour_east, outlined};

use crate::report::CutList;

// What `east` comes to for each number from `first` on, `n` of them, added in 64 bits.
fn summed<F: Fn(usize) -> u64>(first: u32, n: u32, east: F) -> u64
    ghost each: { ℕ → ℕ }
    requires callable { (i : ℕ) → i < first + n → i < first + 4294967296 → F.pre east i }
    requires values { (i v : ℕ) → i < first + n → i < first + 4294967296 → F.post east i v → v ≡ each i }
    ensures { result ≡ summed_of each n first }
{
    let mut total: u64 = 0;
    for i in 0..n {
        total = total.wrapping_add(east(first as usize + i as usize));
    }
    total
}

impl<'a> CutList<'a> {
    // y of the point i where the point j lies east of it, else 0.
    fn eastward(&self, i: usize, j: usize) -> u64
        requires { (i < 17179869184) × (j < 17179869184) }
        ensures { result ≡ eastward self.now.points.now i j }
    {
        if store::get(self.points, 2 * i) < store::get(self.points, 2 * j) {
            return u64::from(store::get(self.points, 2 * i + 1));
        }
        0
    }

    // Of the step from the point i to the next one, or back.
    fn step_east(&self, back: bool, i: usize) -> u64
        requires { i < 8589934592 }
        ensures { result ≡ step_east self.now.points.now (way_of back) i }
    {
        if back {
            return self.eastward(i + 1, i);
        }
        self.eastward(i, i + 1)
    }

    // Of the steps of the segment i.
    fn segment_east(&self, back: bool, i: u32) -> u64
        ensures { result ≡ segment_east self.now.segments.now self.now.points.now (way_of back) i }
    {
        let k = 8 * (i as usize);
        let first = store::get(self.segments, k);
        let count = store::get(self.segments, k + 1);
        summed(first, count.saturating_sub(1), |p| self.step_east(back, p))
    }

    // Of the steps of the reference number j, as it goes or turned round.
    fn reference_east(&self, turned: bool, j: usize) -> u64
        ensures { result ≡ reference_east self.now.segments.now self.now.points.now self.now.references.now (way_of turned) j }
    {
        let r = store::get(self.references, j);
        let back = r % 2 == 1;
        self.segment_east(back != turned, r / 2)
    }

    // Of the steps of the contour k, as they go or turned round.
    fn contour_east(&self, turned: bool, k: usize) -> u64
        requires { k < 8589934592 }
        ensures { result ≡ contour_east self.now.segments.now self.now.points.now self.now.references.now self.now.contours.now (way_of turned) k }
    {
        let first = store::get(self.contours, 2 * k);
        let n = store::get(self.contours, 2 * k + 1);
        summed(first, n, |j| self.reference_east(turned, j))
    }

    // Whether the contour k is an outline.
    pub(crate) fn outlined(&self, k: usize) -> bool
        requires { k < 8589934592 }
        ensures { result ≡ outlined self.now.segments.now self.now.points.now self.now.references.now self.now.contours.now k }
    {
        let east = self.contour_east(false, k);
        let west = self.contour_east(true, k);
        west < east
    }
}
