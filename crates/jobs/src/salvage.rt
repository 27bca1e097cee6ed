// The salvage tool: the records of a job file before the first that is cut short or breaks the form.
ghost use Rattle.std.specs.Prelude.{◌≡◌, true, ◌+◌, ◌*◌, ◌<◌, ◌≤◌, ◌++◌, length, get_or, take, drop};
ghost use Rattle.jobfile.specs.Entries.{words_of, pairs, kind_of, headed as is_headed};
ghost use Rattle.jobfile.specs.Salvage.{unit_apart, points_fit, segment_fits, all_below, contours_fit, face_fits, kind_fits, fits as record_fits, after, start as start_of, kept as kept_of, salvage as salvage_of};
ghost use Rattle.jobs.specs.Salvaging.{place_of, kept_as, salvaged_as};

use crate::{Kind, word_at};
use rules::Refusal;

// WORDS OF A BODY

fn words(body: &[u8]) -> usize
    ensures { result ≡ length (words_of body.now) }
{
    body.len() / 4
}

fn word(body: &[u8], i: usize) -> u32
    requires { i < length (words_of body.now) }
    ensures { result ≡ get_or (words_of body.now) i 0 }
{
    word_at(body, 4 * i)
}

// WHERE A RECORD STANDS: the map's three numbers, the segments kept so far, and whether a face was kept.
#[derive(Clone, Copy)]
struct Place {
    width: u32,
    height: u32,
    paints: u32,
    segments: usize,
    faces: bool,
}

impl Place {
    // Behind the first record of a file.
    #[tactic(auto, unfolding(jobfile::specs::Salvage::start))]
    fn start(file: &[u8]) -> Place
        requires { 17 < length file.now }
        ensures { place_of result ≡ start_of file.now }
    {
        Place {
            width: word_at(file, 6),
            height: word_at(file, 10),
            paints: word_at(file, 14),
            segments: 0,
            faces: false,
        }
    }

    // One more record is kept, of the kind with that number.
    #[tactic(auto, unfolding(jobfile::specs::Salvage::after))]
    fn pass(&mut self, kind: u32)
        requires { self.old.segments < 18446744073709551615 }
        ensures { (place_of self.new ≡ after (place_of self.old) kind) × (self.new.segments ≤ self.old.segments + 1) }
    {
        match Kind::of(kind) {
            Some(Kind::Segment) => self.segments += 1,
            Some(Kind::Face) => self.faces = true,
            Some(Kind::Map) | None => {}
        }
    }
}

// A SEGMENT

// The point i of a body, x and y.
fn point(body: &[u8], i: usize) -> (u32, u32)
    requires { 2 * i + 1 < length (words_of body.now) }
    ensures { (result.0 ≡ get_or (words_of body.now) (2 * i) 0) × (result.1 ≡ get_or (words_of body.now) (2 * i + 1) 0) }
{
    (word(body, 2 * i), word(body, 2 * i + 1))
}

// Across and down together.
#[tactic(auto, unfolding(jobfile::specs::Salvage::unit_apart))]
fn unit_apart(p: (u32, u32), q: (u32, u32)) -> bool
    ensures { result ≡ unit_apart p q }
{
    u64::from(p.0.abs_diff(q.0)) + u64::from(p.1.abs_diff(q.1)) == 1
}

// The n points of a body: two or more, each on the map and one unit from the one before.
fn points_fit(body: &[u8], n: usize, width: u32, height: u32) -> bool
    requires { length (words_of body.now) ≡ 2 * n }
    ensures { result ≡ points_fit width height (pairs (words_of body.now)) }
{
    if n < 2 {
        return false;
    }
    let mut last = point(body, 0);
    if width < last.0 || height < last.1 {
        return false;
    }
    for i in 1..n {
        let next = point(body, i);
        if width < next.0 || height < next.1 || !unit_apart(last, next) {
            return false;
        }
        last = next;
    }
    true
}

#[tactic(auto, unfolding(jobfile::specs::Salvage::segment_fits))]
fn segment_fits(body: &[u8], width: u32, height: u32) -> bool
    ensures { result ≡ segment_fits width height (words_of body.now) }
{
    let n = words(body);
    n % 2 == 0 && points_fit(body, n / 2, width, height)
}

// A FACE

// Each of the count words from `from` on names one of n segments.
fn references_fit(body: &[u8], from: usize, count: usize, n: usize) -> bool
    requires { from + count ≤ length (words_of body.now) }
    ensures { result ≡ all_below n (take count (drop from (words_of body.now))) }
{
    for i in 0..count {
        let r = word(body, from + i);
        if n <= (r / 2) as usize {
            return false;
        }
    }
    true
}

// The words from the fifth on are `count` contours, each a count and as many references.
fn contours_fit(body: &[u8], count: u32, n: usize) -> bool
    requires { 4 ≤ length (words_of body.now) }
    ensures { result ≡ contours_fit n count (drop 4 (words_of body.now)) }
{
    let end = words(body);
    let mut at = 4;
    for _ in 0..count {
        if end <= at {
            return false;
        }
        let k = word(body, at) as usize;
        let room = end - at - 1;
        if room < k || !references_fit(body, at + 1, k, n) {
            return false;
        }
        at = at + 1 + k;
    }
    at == end
}

#[tactic(auto, unfolding(jobfile::specs::Salvage::face_fits))]
fn face_fits(body: &[u8], paints: u32, n: usize) -> bool
    ensures { result ≡ face_fits paints n (words_of body.now) }
{
    4 <= words(body) && word(body, 0) < paints && contours_fit(body, word(body, 3), n)
}

// A RECORD

// A body of the kind with that number.
#[tactic(auto, unfolding(jobfile::specs::Salvage::kind_fits))]
fn kind_fits(body: &[u8], kind: u32, place: &Place) -> bool
    ensures { result ≡ kind_fits (place_of place.now) kind (words_of body.now) }
{
    match Kind::of(kind) {
        Some(Kind::Segment) => !place.faces && segment_fits(body, place.width, place.height),
        Some(Kind::Face) => face_fits(body, place.paints, place.segments),
        Some(Kind::Map) | None => false,
    }
}

// The first record is whole and keeps the form.
#[tactic(auto, unfolding(jobfile::specs::Salvage::fits, jobfile::specs::Entries::entry_size, jobfile::specs::Entries::body_length, jobfile::specs::Entries::body))]
fn fits(b: &[u8], kind: u32, place: &Place) -> bool
    requires { (5 < length b.now) × (kind ≡ kind_of b.now) }
    ensures { result ≡ record_fits (place_of place.now) b.now }
{
    let size = word_at(b, 0) as usize;
    let end = size + 6;
    end <= b.len() && size % 4 == 0 && kind_fits(&b[6..end], kind, place)
}

// WHAT IS KEPT: its length, and the kind of the first record dropped
// Kept, point 1: `kind` stays a number: the C interface answers it, 0 for none, and any number stands in a file.
#[derive(Clone, Copy, Debug, PartialEq, Eq)]
pub struct Kept {
    pub length: usize,
    pub kind: u32,
}

fn keep(b: &[u8]) -> Kept
    requires { is_headed b.now ≡ true }
    ensures { kept_as result ≡ kept_of b.now }
{
    let mut place = Place::start(b);
    let mut at = 18;
    // Kept, point 3: a record says its own length, so where the next one stands is not known before.
    while 6 <= b.len() - at {
        let t = &b[at..];
        let k = crate::kind_number(t);
        if !fits(t, k, &place) {
            return Kept {
                length: at,
                kind: k,
            };
        }
        at = at + 6 + (word_at(t, 0) as usize);
        place.pass(k);
    }
    Kept {
        length: at,
        kind: 0,
    }
}

// THE TOOL

// The first n bytes, unchanged.
// Kept, point 4: the library's copy asks C for `memmove`, which the archive does without (include/mosaic.h).
fn copy(from: &[u8], n: usize, to: &mut [u8])
    requires { (n ≤ length from.now) × (n ≤ length to.old) }
    ensures { to.new ≡ take n from.now ++ drop n to.old }
{
    for k in 0..n {
        to[k] = from[k];
    }
}

// What of a file is kept, and its bytes in `out`. For any bytes and any store: refused when the first record is no whole map record with
// allowed numbers, then when the store is short.
pub fn salvage(file: &[u8], out: &mut [u8]) -> Result<Kept, Refusal>
    ensures { salvaged_as result out.new ≡ salvage_of file.now out.old }
{
    if !crate::headed(file) {
        return Err(Refusal::NoJobFile);
    }
    let k = keep(file);
    let n = k.length;
    if out.len() < n {
        return Err(Refusal::ShortOutput);
    }
    copy(file, n, out);
    Ok(k)
}
