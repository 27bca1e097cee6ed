// The writer's bytes: the cut list in the stores, put into a lent store of bytes. What has no room is dropped.
// Each `put_..` answers the place that follows.
// Kept, point 5: `out` and `at` are no struct: with one, and its pieces as a closure, the lifetimes of `pieces-requires` in `put_face` did not close.
ghost use Rattle.std.specs.Prelude.{◌≡◌, List, [], ◌∷◌, ◌++◌, ℕ, ◌+◌, ◌*◌, ◌%◌, ◌<◌, ◌≤◌, length, get_or};
ghost use Rattle.rules.specs.Refusals.{number_in};
ghost use Rattle.store.specs.Words.{part};
ghost use Rattle.jobfile.specs.JobFile.{word, word_bytes, bytes_of};
ghost use Rattle.jobs.specs.Stored.{Put, pieces, header_entry, stored_segment, stored_contour, stored_face, stored_file, size_by, file_number};
ghost use Rattle.jobs.specs.Kinds.{number_of};

use crate::Kind;
use rules::Refusal;

// BYTES AND WORDS

fn put_byte(out: &mut [u8], at: usize, b: u8) -> usize
    requires { at ≤ length out.old }
    ensures { Put out.old at (b ∷ []) out.new result }
{
    if at < out.len() {
        out[at] = b;
        return at + 1;
    }
    at
}

// The low 32 bits of n.
fn put_word(out: &mut [u8], at: usize, n: u64) -> usize
    requires { at ≤ length out.old }
    ensures { Put out.old at (word n) out.new result }
{
    let [a, b, c, d] = ((n % 4294967296) as u32).to_le_bytes();
    let q = put_byte(out, at, a);
    let q = put_byte(out, q, b);
    let q = put_byte(out, q, c);
    put_byte(out, q, d)
}

// A body length and a kind.
fn put_head(out: &mut [u8], at: usize, size: u64, kind: Kind) -> usize
    requires { at ≤ length out.old }
    ensures { Put out.old at (word size ++ (number_of kind ∷ 0 ∷ [])) out.new result }
{
    let q = put_word(out, at, size);
    let q = put_byte(out, q, kind.number());
    put_byte(out, q, 0)
}

// The word i of a store.
fn put_from(out: &mut [u8], at: usize, words: &[u32], i: usize) -> usize
    requires { at ≤ length out.old }
    ensures { Put out.old at (word (get_or words.now i 0)) out.new result }
{
    put_word(out, at, store::get(words, i) as u64)
}

// The count words from `first` on.
fn put_part(out: &mut [u8], at: usize, words: &[u32], first: usize, count: usize) -> usize
    requires { (at ≤ length out.old) × (first ≤ 8589934592) × (count ≤ 8589934592) }
    ensures { Put out.old at (word_bytes (part words.now first count)) out.new result }
{
    let mut q = at;
    for i in 0..count {
        q = put_from(out, q, words, first + i);
    }
    q
}

// THE MAP

fn put_map(out: &mut [u8], at: usize, width: u32, height: u32, paints: u32) -> usize
    requires { at ≤ length out.old }
    ensures { Put out.old at (bytes_of (header_entry width height paints)) out.new result }
{
    let q = put_head(out, at, 12, Kind::Map);
    let q = put_word(out, q, width as u64);
    let q = put_word(out, q, height as u64);
    put_word(out, q, paints as u64)
}

// The records of a cut list, in lent stores.
#[derive(Clone, Copy)]
pub struct Records<'a> {
    pub segments: &'a [u32],
    pub points: &'a [u32],
    pub references: &'a [u32],
    pub contours: &'a [u32],
    pub faces: &'a [u32],
}

// SEGMENTS

fn put_segment(out: &mut [u8], at: usize, from: Records, i: u32) -> usize
    requires { at ≤ length out.old }
    ensures { Put out.old at (bytes_of (stored_segment from.entry.segments.now from.entry.points.now i)) out.new result }
{
    let k = 8 * (i as usize);
    let first = store::get(from.segments, k) as usize;
    let count = store::get(from.segments, k + 1) as usize;
    let q = put_head(out, at, 8 * (count as u64), Kind::Segment);
    put_part(out, q, from.points, 2 * first, 2 * count)
}

fn put_segments(out: &mut [u8], at: usize, from: Records, n: u32) -> usize
    requires { at ≤ length out.old }
    ensures { Put out.old at (pieces (λ i. bytes_of (stored_segment from.entry.segments.now from.entry.points.now i)) n 0) out.new result }
{
    let mut q = at;
    for i in 0..n {
        q = put_segment(out, q, from, i);
    }
    q
}

// FACES

fn put_contour(out: &mut [u8], at: usize, from: Records, k: usize) -> usize
    requires { (at ≤ length out.old) × (k ≤ 8589934592) }
    ensures { Put out.old at (word_bytes (stored_contour from.entry.contours.now from.entry.references.now k)) out.new result }
{
    let first = store::get(from.contours, 2 * k) as usize;
    let count = store::get(from.contours, 2 * k + 1) as usize;
    let q = put_word(out, at, count as u64);
    put_part(out, q, from.references, first, count)
}

fn put_contours(out: &mut [u8], at: usize, from: Records, first: u32, n: u32) -> usize
    requires { at ≤ length out.old }
    ensures { Put out.old at (pieces (λ k. word_bytes (stored_contour from.entry.contours.now from.entry.references.now k)) n first) out.new result }
{
    let mut q = at;
    for i in 0..n {
        q = put_contour(out, q, from, (first as usize) + (i as usize));
    }
    q
}

// How many words n contours take, its low 32 bits.
fn contours_size(contours: &[u32], first: u32, n: u32) -> u64
    ensures { (result < 4294967296) × ((rs : List ℕ) → result ≡ length (pieces (stored_contour contours.now rs) n first) % 4294967296) }
{
    let mut t: u64 = 0;
    for i in 0..n {
        let k = (first as usize) + (i as usize);
        let c = store::get(contours, 2 * k + 1) as u64;
        t = (t + 1 + c) % 4294967296;
    }
    t
}

fn put_face(out: &mut [u8], at: usize, from: Records, i: u32) -> usize
    requires { at ≤ length out.old }
    ensures { Put out.old at (bytes_of (stored_face from.entry.faces.now from.entry.contours.now from.entry.references.now i)) out.new result }
{
    let faces = from.faces;
    let k = 5 * (i as usize);
    let first = store::get(faces, k + 1);
    let n = store::get(faces, k + 2);
    let size = contours_size(from.contours, first, n);
    let q = put_head(out, at, 4 * (4 + size), Kind::Face);
    let q = put_from(out, q, faces, k);
    let q = put_from(out, q, faces, k + 3);
    let q = put_from(out, q, faces, k + 4);
    let q = put_word(out, q, n as u64);
    put_contours(out, q, from, first, n)
}

fn put_faces(out: &mut [u8], at: usize, from: Records, n: u32) -> usize
    requires { at ≤ length out.old }
    ensures { Put out.old at (pieces (λ i. bytes_of (stored_face from.entry.faces.now from.entry.contours.now from.entry.references.now i)) n 0) out.new result }
{
    let mut q = at;
    for i in 0..n {
        q = put_face(out, q, from, i);
    }
    q
}

// THE FILE

// The numbers of a map and the five counts that its file's length follows from.
#[derive(Clone, Copy)]
pub struct Job {
    pub width: u32,
    pub height: u32,
    pub paints: u32,
    pub segments: u32,
    pub points: u32,
    pub references: u32,
    pub contours: u32,
    pub faces: u32,
}

pub fn put_file(out: &mut [u8], j: Job, from: Records) -> usize
    ensures { Put out.old 0 (stored_file j.width j.height j.paints j.segments j.faces from.entry.segments.now from.entry.points.now from.entry.references.now from.entry.contours.now from.entry.faces.now) out.new result }
{
    let q = put_map(out, 0, j.width, j.height, j.paints);
    let q = put_segments(out, q, from, j.segments);
    put_faces(out, q, from, j.faces)
}

pub fn file_size(j: Job) -> u64
    ensures { result ≡ size_by j.segments j.points j.references j.contours j.faces }
{
    18 + 6 * (j.segments as u64)
        + 8 * (j.points as u64)
        + 22 * (j.faces as u64)
        + 4 * ((j.contours as u64) + (j.references as u64))
}

// Too many paints, then a short store: asked of the counts, before any store is written.
#[tactic(auto, unfolding(crate::specs::Stored::file_number, rules::specs::Calls::first_hit))]
pub fn check_file(paints: u32, room: u64, size: u64) -> Result<(), Refusal>
    ensures { number_in result ≡ file_number paints room size }
{
    if 65535 < paints {
        return Err(Refusal::ManyPaints);
    }
    if room < size {
        return Err(Refusal::ShortOutput);
    }
    Ok(())
}
