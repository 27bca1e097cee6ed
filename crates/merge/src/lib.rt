// Near colours become one leaf: the regions of a map in a lent store, twelve words for each paint, and the merging of neighbours.
#![tactic(auto)]

pub mod order;

ghost use Rattle.std.specs.Prelude.{◌≡◌, ◌+◌, ◌*◌, ◌/◌, ◌%◌, ◌<◌, ◌≤◌, length, set, true, ◌&&◌, ◌||◌};
ghost use Rattle.merge.specs.Merge.{gap, count, touch, stray, merge};
ghost use Rattle.merge.specs.Stored.{word, wide, tinted, channel, taken, apart_in, Room, Fits, Takes, Leaf, Found, Due, Visited, pairs_in, Sweeps, Swept, Settles, Rooms, Begun, Tallies, Tallied, Countable, coloured, Coloured};
ghost use Rattle.merge.specs.Noted.{single, Table, Stands, Noted, right_of, below_of, Beside, Scans, Scanned};
ghost use Rattle.merge.specs.Leaves.{Named, Gives, Given, Relabels, Relabelled, Spread, Leaves, AllLeft};
ghost use Rattle.calls.specs.Outcome.{map_of};
ghost use Rattle.merge.specs.Called.{outcome, asked, Checked, Starts, Started, Ranks, Ranked, Runs, Ran, Merged};

use lattice::{OUTSIDE, Size};
use rules::Refusal;

// The words of a region.
const UP: usize = 0; // the region that it was absorbed by, or itself

const AREA: usize = 1;

const NUMBER: usize = 11; // its number among the new paints

const RED: Channel = Channel { sum: 2, mean: 8 };

const GREEN: Channel = Channel { sum: 4, mean: 9 };

const BLUE: Channel = Channel { sum: 6, mean: 10 };

// The word k of the region l.
fn get(regions: &[u32], l: usize, k: usize) -> u32
    requires { 12 * l + k < length regions.now }
    ensures { result ≡ word regions.now l k }
{
    regions[12 * l + k]
}

// The word v as word k of the region l.
fn put(regions: &mut [u32], l: usize, k: usize, v: u32)
    requires { 12 * l + k < length regions.old }
    ensures { regions.new ≡ set regions.old (12 * l + k) v }
{
    regions[12 * l + k] = v;
}

// A channel of a region: the first of the two words of its sum, and the word of its mean.
#[derive(Clone, Copy)]
struct Channel {
    sum: usize,
    mean: usize,
    ghost words: { (sum + 1 < 12) × (mean < 12) },
}

impl Channel {
    // The sum of the region l.
    fn sum(self, regions: &[u32], l: usize) -> u64
        requires { 12 * l + (self.sum + 1) < length regions.now }
        ensures { result ≡ wide regions.now l self.sum }
    {
        let low = get(regions, l, self.sum);
        let high = get(regions, l, self.sum + 1);
        u64::from(low) + 4294967296 * u64::from(high)
    }

    // The sum v of the region l, and its mean over an area.
    fn put(self, regions: &mut [u32], l: usize, v: u64, area: u64)
        requires room { 12 * l + 12 ≤ length regions.old }
        requires fits { (0 < area) × (v ≤ 255 * area) }
        ensures { regions.new ≡ tinted l self.sum self.mean v area regions.old }
    {
        put(regions, l, self.sum, (v % 4294967296) as u32);
        put(regions, l, self.sum + 1, (v / 4294967296) as u32);
        put(regions, l, self.mean, (v / area) as u32);
    }

    // The region a takes over the sum of b.
    fn add(self, regions: &mut [u32], a: usize, b: usize, area: u64)
        requires room { Room a b regions.old }
        requires fits { Fits a b self.sum area regions.old }
        ensures { regions.new ≡ channel a b self.sum self.mean area regions.old }
    {
        let v = self.sum(regions, a) + self.sum(regions, b);
        self.put(regions, a, v, area);
    }

    // The region l at the start: the colour for each of its pixels.
    fn tint(self, regions: &mut [u32], l: usize, colour: u8, area: u64)
        requires room { 12 * l + 12 ≤ length regions.old }
        requires small { area ≤ 4294967295 }
        ensures { regions.new ≡ tinted l self.sum self.mean (colour * area) area regions.old }
    {
        if area == 0 {
            put(regions, l, self.sum, 0);
            put(regions, l, self.sum + 1, 0);
            put(regions, l, self.mean, 0);
            return;
        }
        self.put(regions, l, u64::from(colour) * area, area);
    }

    // How far the means of two regions are apart.
    fn gap(self, regions: &[u32], a: usize, b: usize) -> u64
        requires { Room a b regions.now }
        ensures { (result ≡ gap (word regions.now a self.mean) (word regions.now b self.mean)) × (result ≤ 4294967295) }
    {
        order::gap(get(regions, a, self.mean), get(regions, b, self.mean))
    }
}

// The region a absorbs b.
fn absorb(regions: &mut [u32], a: usize, b: usize)
    requires { Takes a b regions.old }
    ensures { regions.new ≡ taken a b regions.old }
{
    let area = u64::from(get(regions, a, AREA)) + u64::from(get(regions, b, AREA));
    put(regions, b, UP, a as u32);
    put(regions, a, AREA, area as u32);
    RED.add(regions, a, b, area);
    GREEN.add(regions, a, b, area);
    BLUE.add(regions, a, b, area);
}

// The distance of two regions' mean colours.
fn apart(regions: &[u32], a: usize, b: usize) -> u64
    requires { Room a b regions.now }
    ensures { result ≡ apart_in regions.now a b }
{
    RED.gap(regions, a, b) + GREEN.gap(regions, a, b) + BLUE.gap(regions, a, b)
}

// The region that l is part of. The way there is halved.
fn find(regions: &mut [u32], n: usize, l: usize) -> usize
    requires { Leaf n l regions.old }
    ensures { Found n l regions.old result regions.new }
{
    let mut r = l;
    loop {
        let up = get(regions, r, UP) as usize;
        if up == r {
            return r;
        }
        let over = get(regions, up, UP);
        put(regions, r, UP, over);
        r = over as usize;
    }
}

// A pair: the first region absorbs the second if their colours are within the limit. Whether it did.
fn visit(regions: &mut [u32], n: usize, limit: u32, a: usize, b: usize) -> bool
    requires { Due n a b regions.old }
    ensures { Visited n limit a b regions.old result regions.new }
{
    let p = find(regions, n, a);
    let q = find(regions, n, b);
    if p == q {
        return false;
    }
    if u64::from(limit) < apart(regions, p, q) {
        return false;
    }
    absorb(regions, p, q);
    true
}

// The m pairs in the order in which they stand. How many regions were absorbed.
fn sweep(work: &[u32], regions: &mut [u32], n: usize, limit: u32, m: usize) -> usize
    requires { Sweeps n m work.now regions.old }
    ensures { Swept n limit (pairs_in work.now m) regions.old result regions.new }
{
    let mut count: usize = 0;
    for k in 0..m {
        let a = work[2 * k] as usize;
        let b = work[2 * k + 1] as usize;
        if visit(regions, n, limit, a, b) {
            count += 1;
        }
    }
    count
}

// Sweeps until one absorbs nothing.
// Kept, point 5: n, how many regions there are, stays beside their store: the measure of these sweeps counts those below it that stand.
fn settle(work: &[u32], regions: &mut [u32], n: usize, limit: u32, m: usize)
    requires { Sweeps n m work.now regions.old }
    ensures { Settles n limit (pairs_in work.now m) regions.old regions.new }
{
    loop {
        if sweep(work, regions, n, limit, m) == 0 {
            return;
        }
    }
}

// Each of n paints a region by itself, with no pixel yet.
fn begin(regions: &mut [u32], n: usize)
    requires { Rooms n regions.old }
    ensures { Begun n (λ l. 0) regions.old regions.new }
{
    for l in 0..n {
        put(regions, l, UP, l as u32);
        put(regions, l, AREA, 0);
    }
}

// A pixel with the label l.
fn tally(regions: &mut [u32], n: usize, l: u32)
    requires { Tallies n l regions.old }
    ensures { Tallied n l regions.old regions.new }
{
    if l == OUTSIDE {
        return;
    }
    let area = get(regions, l as usize, AREA);
    put(regions, l as usize, AREA, area + 1);
}

// The pixels of each label.
fn count(labels: &[u32], regions: &mut [u32], n: usize)
    requires { Countable n labels.now regions.old }
    ensures { Begun n (λ l. count l labels.now) regions.old regions.new }
{
    for l in labels {
        tally(regions, n, *l);
    }
}

// The region l at the start, its pixels counted already.
fn colour(colours: &[u8], regions: &mut [u32], l: usize)
    requires colours { 3 * l + 3 ≤ length colours.now }
    requires regions { 12 * l + 12 ≤ length regions.old }
    ensures { regions.new ≡ coloured colours.now l regions.old }
{
    let area = u64::from(get(regions, l, AREA));
    RED.tint(regions, l, colours[3 * l], area);
    GREEN.tint(regions, l, colours[3 * l + 1], area);
    BLUE.tint(regions, l, colours[3 * l + 2], area);
}

// All regions at the start.
fn colour_all(colours: &[u8], regions: &mut [u32], n: usize)
    requires colours { 3 * n ≤ length colours.now }
    requires regions { Rooms n regions.old }
    ensures { Coloured n colours.now regions.old regions.new }
{
    for l in 0..n {
        colour(colours, regions, l);
    }
}

// Whether the pair a, b stands at the place e of the list.
fn stands(work: &[u32], count: usize, e: usize, a: u32, b: u32) -> bool
    requires { 2 * count ≤ length work.now }
    ensures { result ≡ true → Stands count e a b work.now }
{
    e < count && work[2 * e] == a && work[2 * e + 1] == b
}

// The table of the pairs that touch: where it stands in the work store, how many slots it has, and how many paints there are.
#[derive(Clone, Copy)]
struct PairTable {
    first: usize,
    slots: usize,
    paints: usize,
}

impl PairTable {
    // The pair a, b into the list of `count` pairs, unless the table names a place where it stands. How many there then are.
    fn note(self, work: &mut [u32], count: usize, a: u32, b: u32) -> usize
        requires { Table self count work.old }
        ensures { Noted (single a b) count work.old result work.new }
    {
        let slot = self.first + ((a as usize) * self.paints + (b as usize)) % self.slots;
        let e = work[slot] as usize;
        if stands(work, count, e, a, b) {
            return count;
        }
        work[slot] = count as u32;
        work[2 * count] = a;
        work[2 * count + 1] = b;
        count + 1
    }

    // Two labels of neighbours, as a pair if they touch.
    fn touch(self, work: &mut [u32], count: usize, a: u32, b: u32) -> usize
        requires { Table self count work.old }
        ensures { Noted (touch a b) count work.old result work.new }
    {
        if a == OUTSIDE || b == OUTSIDE || a == b {
            return count;
        }
        self.note(work, count, a.min(b), a.max(b))
    }

    // The pixel p, in the column x, with the one right of it.
    fn right(
        self,
        labels: &[u32],
        work: &mut [u32],
        width: usize,
        count: usize,
        x: usize,
        p: usize,
    ) -> usize
        requires table { Table self count work.old }
        requires beside { Beside width x p labels.now }
        ensures { Noted (right_of width labels.now p) count work.old result work.new }
    {
        if width <= x + 1 {
            return count;
        }
        self.touch(work, count, labels[p], labels[p + 1])
    }

    // The pixel p with the one below it.
    fn below(self, labels: &[u32], work: &mut [u32], width: usize, count: usize, p: usize) -> usize
        requires table { Table self count work.old }
        requires pixel { (p < length labels.now) × (p + width < 18446744073709551616) }
        ensures { Noted (below_of width labels.now p) count work.old result work.new }
    {
        if labels.len() <= p + width {
            return count;
        }
        self.touch(work, count, labels[p], labels[p + width])
    }

    // The pairs of all pixels, row by row: how many were noted.
    fn scan(self, labels: &[u32], work: &mut [u32], width: usize, height: usize) -> usize
        requires { Scans self width height labels.now work.old }
        ensures { Scanned width (length labels.now) labels.now work.old result work.new }
    {
        let mut count: usize = 0;
        for y in 0..height {
            for x in 0..width {
                let p = y * width + x;
                count = self.right(labels, work, width, count, x, p);
                count = self.below(labels, work, width, count, p);
            }
        }
        count
    }
}

// Whether the list of k regions names a at the place e.
fn named(work: &[u32], k: usize, e: usize, a: u32) -> bool
    requires { k ≤ length work.now }
    ensures { Named k e a work.now result }
{
    e < k && work[e] == a
}

// A number for the region a, and its mean colour, unless it has one: k have one already. How many then have one.
fn give(
    colours: &mut [u8],
    work: &mut [u32],
    regions: &mut [u32],
    n: usize,
    a: usize,
    k: usize,
) -> usize
    requires { Gives n a k colours.old work.old regions.old }
    ensures { Given n a k colours.old work.old regions.old result colours.new work.new regions.new }
{
    let e = get(regions, a, NUMBER);
    if named(work, k, e as usize, a as u32) {
        return k;
    }
    let red = get(regions, a, RED.mean);
    let green = get(regions, a, GREEN.mean);
    let blue = get(regions, a, BLUE.mean);
    colours[3 * k..3 * k + 3].copy_from_slice(&[red as u8, green as u8, blue as u8]);
    work[k] = a as u32;
    put(regions, a, NUMBER, k as u32);
    k + 1
}

// The new label of the pixel p. How many regions then have a number.
fn relabel_one(
    labels: &mut [u32],
    colours: &mut [u8],
    work: &mut [u32],
    regions: &mut [u32],
    n: usize,
    k: usize,
    p: usize,
) -> usize
    requires { Relabels n k p labels.old colours.old work.old regions.old }
    ensures { Relabelled n k p labels.old colours.old work.old regions.old result labels.new colours.new work.new regions.new }
{
    let l = labels[p];
    if l == OUTSIDE {
        return k;
    }
    let a = find(regions, n, l as usize);
    let r = give(colours, work, regions, n, a, k);
    let v = get(regions, a, NUMBER);
    labels[p] = v;
    r
}

// The labels from a place on that are `old` become `new`. Where another label comes, or the end.
fn spread(labels: &mut [u32], from: usize, old: u32, new: u32) -> usize
    requires { from ≤ length labels.old }
    ensures { Spread from old new labels.old result labels.new }
{
    for q in from..labels.len() {
        if labels[q] != old {
            return q;
        }
        labels[q] = new;
    }
    labels.len()
}

// The new labels of all pixels, run by run, and the colours of the new paints. How many there are.
fn relabel(
    labels: &mut [u32],
    colours: &mut [u8],
    work: &mut [u32],
    regions: &mut [u32],
    n: usize,
) -> usize
    requires { Leaves n labels.old colours.old work.old regions.old }
    ensures { AllLeft n labels.old colours.old work.old regions.old result labels.new colours.new work.new regions.new }
{
    let mut k: usize = 0;
    let mut p: usize = 0;
    // Kept, point 3: p goes on by a run; chunk_by_mut tried, no contract says what its runs leave behind them.
    while p < labels.len() {
        let old = labels[p];
        k = relabel_one(labels, colours, work, regions, n, k, p);
        let new = labels[p];
        p = spread(labels, p + 1, old, new);
    }
    k
}

// The regions at the start.
fn start(s: Size, labels: &[u32], colours: &[u8], regions: &mut [u32])
    requires { Starts (map_of s labels.now) colours.now regions.old }
    ensures { Started (map_of s labels.now) colours.now regions.old regions.new }
{
    let n = s.paints as usize;
    begin(regions, n);
    count(labels, regions, n);
    colour_all(colours, regions, n);
}

// The slots of the table of n paints: one for each pair, or as many as there is room for.
fn slots(n: usize, most: usize) -> usize
    requires { (0 < n) × (n ≤ 4294967295) × (0 < most) }
    ensures { (0 < result) × (result ≤ most) }
{
    (n * n).min(most)
}

// The pairs in their order. How many there are.
fn rank(s: Size, labels: &[u32], colours: &[u8], work: &mut [u32]) -> usize
    requires { Ranks (map_of s labels.now) work.old }
    ensures { Ranked (map_of s labels.now) colours.now work.old result work.new }
{
    let n = s.paints as usize;
    let corners = lattice::plane(s);
    let table = PairTable {
        first: 4 * corners,
        slots: slots(n, 4 * corners),
        paints: n,
    };
    let noted = table.scan(labels, work, s.width as usize, s.height as usize);
    order::sort(colours, work, 0, 2 * corners, noted)
}

// The merge. How many paints are left.
fn run(
    s: Size,
    limit: u32,
    labels: &mut [u32],
    colours: &mut [u8],
    work: &mut [u32],
    regions: &mut [u32],
) -> usize
    requires { Runs (map_of s labels.old) colours.old work.old regions.old }
    ensures { Ran (map_of s labels.old) limit colours.old work.old regions.old result labels.new colours.new work.new regions.new }
{
    let n = s.paints as usize;
    start(s, labels, colours, regions);
    let m = rank(s, labels, colours, work);
    settle(work, regions, n, limit, m);
    relabel(labels, colours, work, regions, n)
}

// The merge in stores of the right lengths, which are zero afterwards.
fn merge_within(
    s: Size,
    limit: u32,
    labels: &mut [u32],
    colours: &mut [u8],
    work: &mut [u32],
    regions: &mut [u32],
) -> u32
    requires { Runs (map_of s labels.old) colours.old work.old regions.old }
    ensures { Merged (map_of s labels.old) limit colours.old work.old regions.old result labels.new colours.new work.new regions.new }
{
    let r = run(s, limit, labels, colours, work, regions);
    work.fill(0);
    regions.fill(0);
    r as u32
}

// The limit at which a merge is made, if one is.
fn asked(limit: i32, paints: u32) -> Option<u32>
    ensures { result ≡ asked limit paints }
{
    if paints < 2 {
        return None;
    }
    u32::try_from(limit).ok()
}

// Whether one of the labels is neither OUTSIDE nor painted.
fn stray(labels: &[u32], paints: u32) -> bool
    ensures { result ≡ stray paints labels.now }
{
    labels.iter().any(|l| *l != OUTSIDE && paints <= *l)
}

// Whether the call can be made: the first check that hits, in the order of docs/RULES.md.
fn check(
    s: Size,
    merging: bool,
    labels: &[u32],
    colours: &[u8],
    work: &[u32],
    regions: &[u32],
) -> Result<(), Refusal>
    ensures { Checked (map_of s labels.now) merging colours.now work.now regions.now result }
{
    if 16384 < s.width || 16384 < s.height {
        return Err(Refusal::LongSide);
    }
    if labels.len() != (s.width as usize) * (s.height as usize) {
        return Err(Refusal::LabelCount);
    }
    if merging && stray(labels, s.paints) {
        return Err(Refusal::StrayLabel);
    }
    if work.len() < 8 * lattice::plane(s) {
        return Err(Refusal::ShortWork);
    }
    let n = s.paints as usize;
    if merging && (colours.len() != 3 * n || regions.len() < 12 * n) {
        return Err(Refusal::MergeStores);
    }
    Ok(())
}

// Near colours become one leaf. How many paints there then are.
pub fn merge(
    s: Size,
    limit: i32,
    labels: &mut [u32],
    colours: &mut [u8],
    work: &mut [u32],
    regions: &mut [u32],
) -> Result<u32, Refusal>
    ensures { outcome result labels.new colours.new work.new regions.new ≡ merge (map_of s labels.old) limit colours.old work.old regions.old }
{
    let at_most = asked(limit, s.paints);
    check(s, at_most.is_some(), labels, colours, work, regions)?;
    let work = &mut work[..8 * lattice::plane(s)];
    let Some(at_most) = at_most else {
        work.fill(0);
        return Ok(s.paints);
    };
    let regions = &mut regions[..12 * (s.paints as usize)];
    Ok(merge_within(s, at_most, labels, colours, work, regions))
}
