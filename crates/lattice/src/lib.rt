// The lattice of pixel corners: labels, cracks, nodes, and a walker's step.
#![tactic(auto)]

ghost use Rattle.std.specs.Prelude.{◌≡◌, ◌+◌, ◌*◌, ◌<◌, ◌≤◌};
ghost use Rattle.rules.specs.Picture.{seen as seen_label, label as label_at, right_of};
ghost use Rattle.lattice.specs.Size.{Small, Sides, Map, Corner, pic};
ghost use Rattle.lattice.specs.Planes.{plane, place};
ghost use Rattle.lattice.specs.Dirs.{dir};
ghost use Rattle.lattice.specs.Around.{around_of, left_in, crack_in, mask_in, node_in, way_in, onward_in};
ghost use Rattle.lattice.specs.Walker.{Ahead, moved_of, step_in};

use rules::Dir;

pub const OUTSIDE: u32 = 4294967295;

// The word for "none" in a record.
pub const NONE: u32 = 4294967295;

// The sides of a map, how many of its labels are painted, and the first label that is read as OUTSIDE.
#[derive(Clone, Copy, Debug, PartialEq, Eq)]
pub struct Size {
    pub width: u32,
    pub height: u32,
    pub paints: u32,
    pub bound: u32,
}

// Numbers that must not be mixed up: they are unpacked at the stores only.
#[derive(Clone, Copy, Debug, PartialEq, Eq)]
pub struct NodeId(pub u32);

#[derive(Clone, Copy, Debug, PartialEq, Eq)]
pub struct SegId(pub u32);

#[derive(Clone, Copy, Debug, PartialEq, Eq)]
pub struct RegionId(pub u32);

// The labels of the four pixels around a corner.
#[derive(Clone, Copy, Debug, PartialEq, Eq)]
pub struct Around {
    pub nw: u32,
    pub ne: u32,
    pub sw: u32,
    pub se: u32,
}

// The number of a place in rows that are `across` wide.
pub fn cell(across: u32, x: u32, y: u32) -> usize
    requires { Small across x y }
    ensures { result ≡ y * across + x }
{
    (y as usize) * (across as usize) + (x as usize)
}

// The words of a plane of the work store: one for each corner.
pub fn plane(s: Size) -> usize
    requires { Sides s }
    ensures { (result ≡ plane s.width s.height) × (result ≤ 268468225) }
{
    (s.width as usize + 1) * (s.height as usize + 1)
}

// The word of the corner (x, y) in a plane.
pub fn corner_index(s: Size, x: u32, y: u32) -> usize
    requires sides { Sides s }
    requires corner { Corner s x y }
    ensures { (result ≡ place s.width x y) × (result < plane s.width s.height) }
{
    cell(s.width + 1, x, y)
}

// A label as it is read: one at or above the bound as OUTSIDE.
pub fn seen(bound: u32, label: u32) -> u32
    ensures { result ≡ seen_label bound label }
{
    if label < bound { label } else { OUTSIDE }
}

// The label of the pixel (x, y), OUTSIDE off the map.
pub fn label(s: Size, labels: &[u32], x: u32, y: u32) -> RegionId
    requires { Map s labels.now }
    ensures { result.0 ≡ label_at s.width s.height s.bound labels.now x y }
{
    if x < s.width && y < s.height {
        let i = cell(s.width, x, y);
        let l = labels[i];
        return RegionId(seen(s.bound, l));
    }
    RegionId(OUTSIDE)
}

// The four labels around the corner (x, y).
pub fn look(s: Size, labels: &[u32], x: u32, y: u32) -> Around
    requires map { Map s labels.now }
    requires corner { Corner s x y }
    ensures { result ≡ around_of (pic s labels.now) x y }
{
    let west = x.wrapping_sub(1);
    let north = y.wrapping_sub(1);
    let nw = label(s, labels, west, north);
    let ne = label(s, labels, x, north);
    let sw = label(s, labels, west, y);
    let se = label(s, labels, x, y);
    Around {
        nw: nw.0,
        ne: ne.0,
        sw: sw.0,
        se: se.0,
    }
}

// The direction that a record's number means: 3 and any number above is west.
pub fn direction(number: u32) -> Dir
    ensures { result ≡ dir number }
{
    match number {
        0 => Dir::N,
        1 => Dir::E,
        2 => Dir::S,
        _ => Dir::W,
    }
}

impl Around {
    // The label on the left when leaving in the direction d.
    pub fn left(self, d: Dir) -> RegionId
        ensures { result.0 ≡ left_in self d }
    {
        match d {
            Dir::N => RegionId(self.nw),
            Dir::E => RegionId(self.ne),
            Dir::S => RegionId(self.se),
            Dir::W => RegionId(self.sw),
        }
    }

    // The label on the right: that on the left of the next direction round.
    pub fn right(self, d: Dir) -> RegionId
        ensures { result.0 ≡ left_in self (right_of d) }
    {
        self.left(d.right())
    }

    // Whether there is a crack in the direction d.
    pub fn crack(self, d: Dir) -> bool
        ensures { result ≡ crack_in self d }
    {
        self.left(d) != self.right(d)
    }

    // The cracks that meet, a bit for each: N 1, E 2, S 4, W 8.
    pub fn edge_mask(self) -> u32
        ensures { result ≡ mask_in self }
    {
        u32::from(self.nw != self.ne)
            + 2 * u32::from(self.ne != self.se)
            + 4 * u32::from(self.se != self.sw)
            + 8 * u32::from(self.sw != self.nw)
    }

    // Whether the corner is a node, by its mask, row by row: three or four cuts meet. No corner has a mask of one cut alone, since the
    // labels around it come back to where they began (`no_single`, `no_mask_of_one`).
    pub fn node(self) -> bool
        ensures { result ≡ node_in self }
    {
        let mask = self.edge_mask();
        match mask {
            0 => false, // no cut
            1 => false, // N alone: at no corner
            2 => false, // E alone: at no corner
            3 => false, // N and E
            4 => false, // S alone: at no corner
            5 => false, // N and S
            6 => false, // E and S
            7 => true, // N, E and S
            8 => false, // W alone: at no corner
            9 => false, // N and W
            10 => false, // E and W
            11 => true, // N, E and W
            12 => false, // S and W
            13 => true, // N, S and W
            14 => true, // E, S and W
            _ => true, // all four
        }
    }

    // Whether a walk that arrives with this heading may go on in the direction d: along a crack, and not back.
    fn way(self, heading: Dir, d: Dir) -> bool
        ensures { result ≡ way_in self heading d }
    {
        self.crack(d) && d != heading.back()
    }

    // The first crack other than the way back, for a walk that arrives with this heading.
    #[tactic(auto, unfolding(crate::specs::Around::onward_in))]
    pub fn onward(self, heading: Dir) -> Dir
        ensures { result ≡ onward_in self heading }
    {
        if self.way(heading, Dir::N) {
            Dir::N
        } else if self.way(heading, Dir::E) {
            Dir::E
        } else if self.way(heading, Dir::S) {
            Dir::S
        } else {
            Dir::W
        }
    }
}

// The labels around the corner east of (x, y), by the labels a around that.
pub fn look_east(s: Size, labels: &[u32], a: Around, x: u32, y: u32) -> Around
    requires map { Map s labels.now }
    requires corner { Corner s x y }
    requires around { a ≡ around_of (pic s labels.now) x y }
    ensures { result ≡ around_of (pic s labels.now) (x + 1) y }
{
    let north = y.wrapping_sub(1);
    let ne = label(s, labels, x + 1, north);
    let se = label(s, labels, x + 1, y);
    Around {
        nw: a.ne,
        ne: ne.0,
        sw: a.se,
        se: se.0,
    }
}

// A walker: the corner that it stands at, and the direction that it goes.
#[derive(Clone, Copy, Debug, PartialEq, Eq)]
pub struct Walker {
    pub x: u32,
    pub y: u32,
    pub d: Dir,
}

impl Walker {
    // One unit ahead.
    #[tactic(auto, unfolding(rules::specs::Picture::to_x, rules::specs::Picture::to_y))]
    pub fn moved(self) -> Walker
        requires { Ahead self }
        ensures { result ≡ moved_of self }
    {
        match self.d {
            Dir::N => Walker {
                y: self.y - 1,
                ..self
            },
            Dir::E => Walker {
                x: self.x + 1,
                ..self
            },
            Dir::S => Walker {
                y: self.y + 1,
                ..self
            },
            Dir::W => Walker {
                x: self.x - 1,
                ..self
            },
        }
    }

    // One unit ahead, and round to the way on there, where the labels around are a.
    pub fn step(self, a: Around) -> Walker
        requires { Ahead self }
        ensures { result ≡ step_in a self }
    {
        let m = self.moved();
        Walker {
            d: a.onward(m.d),
            ..m
        }
    }
}
