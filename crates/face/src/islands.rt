// Islands of equal labels: the number of each pixel is the first pixel of its island. Row by row each pixel is joined with the equal
// neighbours before it, as a tree whose root is its least pixel; then each takes over its root's number.
ghost use Rattle.std.specs.Prelude.{◌≡◌, ℕ, suc, ◌+◌, ◌*◌, ◌%◌, ◌<◌, ◌≤◌, length, get_or};
ghost use Rattle.rules.specs.Picture.{seen};
ghost use Rattle.lattice.specs.Size.{Map};
ghost use Rattle.lattice.specs.Planes.{plane};
ghost use Rattle.face.specs.Islands.{area, Sizes, Leaf, Rooted, Met, Before, Above, Hand, Linked, Links, beside_left, beside_right, Unsettled, Settles, Numbered, plan};

use lattice::{NONE, OUTSIDE, Size};

// The sides of the map, the first label that is read as OUTSIDE, and where the numbers stand in the work store.
#[derive(Clone, Copy)]
struct Plan {
    width: usize,
    height: usize,
    bound: u32,
    ids: usize,
}

// The pixel left of `at`, which stands in the column x.
fn left(x: usize, at: usize) -> Option<usize>
    requires { x ≤ at }
    ensures { result ≡ beside_left x at }
{
    if 0 < x { Some(at - 1) } else { None }
}

impl Plan {
    // The pixel right of `at`, which stands in the column x.
    fn right(self, x: usize, at: usize) -> Option<usize>
        requires column { x ≤ at }
        requires small { at < 4294967295 }
        ensures { result ≡ beside_right self.width x at }
    {
        if x + 1 < self.width {
            Some(at + 1)
        } else {
            None
        }
    }

    // The label of the pixel p as it is read.
    fn read(self, labels: &[u32], p: usize) -> u32
        requires { p < length labels.now }
        ensures { result ≡ seen self.bound (get_or labels.now p 0) }
    {
        lattice::seen(self.bound, labels[p])
    }

    // The root of the tree that q is in, among the pixels up to p. The way there is halved.
    fn root(self, labels: &[u32], work: &mut [u32], p: usize, q: usize) -> usize
        requires { Leaf self (suc p) labels.now work.old q }
        ensures { Rooted self (suc p) labels.now q work.old result work.new }
    {
        let mut r = q;
        loop {
            let up = work[self.ids + r];
            if up as usize == r {
                return r;
            }
            let over = work[self.ids + (up as usize)];
            work[self.ids + r] = over;
            r = over as usize;
        }
    }

    // p and q, which have one label, into one tree, where they do not name the same pixel already.
    fn join(self, labels: &[u32], work: &mut [u32], p: usize, q: usize)
        requires leaf { Leaf self (suc p) labels.now work.old p }
        requires before { Before self p q }
        requires same { seen self.bound (get_or labels.now q 0) ≡ seen self.bound (get_or labels.now p 0) }
        ensures { Met self p labels.now work.old work.new (λ r. r ≡ q) }
    {
        if work[self.ids + p] == work[self.ids + q] {
            return;
        }
        let a = self.root(labels, work, p, p);
        let b = self.root(labels, work, p, q);
        work[self.ids + a.max(b)] = a.min(b) as u32;
    }

    // p and the pixel q, if there is one and it has p's label.
    fn meet(self, labels: &[u32], work: &mut [u32], p: usize, q: Option<usize>)
        requires leaf { Leaf self (suc p) labels.now work.old p }
        requires before { (r : ℕ) → q ≡ Some r → Before self p r }
        ensures { Met self p labels.now work.old work.new (λ r. q ≡ Some r) }
    {
        let Some(q) = q else {
            return;
        };
        if self.read(labels, q) == self.read(labels, p) {
            self.join(labels, work, p, q);
        }
    }

    // p with its equal neighbours in the row above. Where the one right above is equal, those beside it are in its tree already.
    fn meet_above(self, labels: &[u32], work: &mut [u32], x: usize, p: usize)
        requires { Hand self x p labels.now work.old }
        ensures { Met self p labels.now work.old work.new (Above self p) }
    {
        let Some(north) = p.checked_sub(self.width) else {
            return;
        };
        if self.read(labels, north) == self.read(labels, p) {
            self.join(labels, work, p, north);
            return;
        }
        self.meet(labels, work, p, left(x, north));
        self.meet(labels, work, p, self.right(x, north));
    }

    // The pixel p, in the column x: a tree by itself, and then one with its equal neighbours before it.
    fn link(self, labels: &[u32], work: &mut [u32], x: usize, p: usize)
        requires linked { Linked self p labels.now work.old }
        requires within { p < area self }
        requires column { x ≡ p % self.width }
        ensures { Links self p labels.now work.old (suc p) work.new }
    {
        if self.read(labels, p) == OUTSIDE {
            work[self.ids + p] = NONE;
            return;
        }
        work[self.ids + p] = p as u32;
        self.meet(labels, work, p, left(x, p));
        self.meet_above(labels, work, x, p);
    }

    // All pixels, row by row.
    fn link_all(self, labels: &[u32], work: &mut [u32])
        requires { Sizes self labels.now work.old }
        ensures { Links self 0 labels.now work.old (area self) work.new }
    {
        for y in 0..self.height {
            for x in 0..self.width {
                self.link(labels, work, x, y * self.width + x);
            }
        }
    }

    // The pixel q, where those before it have their roots' numbers, takes over the number of the one that it names: 1 for the root of a
    // painted island.
    fn settle(self, labels: &[u32], work: &mut [u32], paints: u32, q: usize) -> u32
        requires { Unsettled self q labels.now work.old }
        ensures { Settles self paints q labels.now work.old result work.new }
    {
        let label = self.read(labels, q);
        if label == OUTSIDE {
            return 0;
        }
        let up = work[self.ids + q];
        work[self.ids + q] = work[self.ids + (up as usize)];
        u32::from(label < paints && up as usize == q)
    }

    // All pixels; how many islands are painted.
    fn settle_all(self, labels: &[u32], work: &mut [u32], paints: u32) -> u32
        requires linked { Linked self (area self) labels.now work.old }
        requires word { paints ≤ 4294967295 }
        ensures { Numbered self paints labels.now work.old result work.new }
    {
        let mut count: u32 = 0;
        for q in 0..labels.len() {
            count += self.settle(labels, work, paints, q);
        }
        count
    }
}

// The islands of a map, numbered in plane 5 of the work store: how many are painted.
pub fn islands(s: Size, labels: &[u32], work: &mut [u32]) -> u32
    requires map { Map s labels.now }
    requires room { 6 * plane s.width s.height ≤ length work.old }
    ensures { Numbered (plan s) s.paints labels.now work.old result work.new }
{
    let m = Plan {
        width: s.width as usize,
        height: s.height as usize,
        bound: s.bound,
        ids: 5 * lattice::plane(s),
    };
    m.link_all(labels, work);
    m.settle_all(labels, work, s.paints)
}
