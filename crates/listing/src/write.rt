// The listing's words: each piece by itself, with its contours from their earliest steps on. What has no room is dropped.
ghost use Rattle.std.specs.Prelude.{◌≡◌, ◌+◌, ◌<◌, ◌≤◌, length};
ghost use Rattle.std.proofs.lemmas.List.Edits.{sets};
ghost use Rattle.benches.specs.Listing.{step_words};
ghost use Rattle.lattice.specs.Walker.{dart_of};
ghost use Rattle.face.specs.Contours.{Starts};
ghost use Rattle.listing.specs.Writing.{Contour, Strung, piece_in, Wrote, Planned, pieces_in};
ghost use Rattle.listing.specs.Answers.{Answers};

use crate::starts;
use lattice::{RegionId, Size, Walker};
use rules::Refusal;

// x, y and direction of a step.
fn put_step(listing: &mut [u32], at: usize, c: Walker)
    ensures { listing.new ≡ sets listing.old at (step_words (dart_of c)) }
{
    store::put_all(listing, at, [c.x, c.y, c.d.code()]);
}

// The contour of w from `at` on: how many steps, and the steps. Where it ends.
fn write_contour(
    s: Size,
    labels: &[u32],
    listing: &mut [u32],
    at: usize,
    w: Walker,
    region: RegionId,
) -> usize
    requires starts { Starts s labels.now w region.0 }
    requires low { at ≤ 8589934592 }
    ensures { Contour s labels.now at w listing.old listing.new result }
{
    let mut c = w;
    let mut n: u32 = 0;
    loop {
        put_step(listing, at + 1 + 3 * (n as usize), c);
        n += 1;
        let m = c.moved();
        let a = lattice::look(s, labels, m.x, m.y);
        c = face::contours::turn(c, a, region);
        if c == w {
            store::put(listing, at, n);
            return at + 1 + 3 * (n as usize);
        }
    }
}

// The piece of the island p from `at` on: its label, how many contours, and the contours. Where it ends.
fn write_piece(
    s: Size,
    labels: &[u32],
    work: &[u32],
    listing: &mut [u32],
    at: usize,
    p: usize,
) -> usize
    requires strung { Strung s labels.now work.now p }
    requires low { at + length (piece_in s labels.now work.now p) ≤ 8589934592 }
    ensures { Wrote (piece_in s labels.now work.now p) at listing.old listing.new result }
{
    let plane = lattice::plane(s);
    let region = store::get(labels, p);
    let mut end = at + 2;
    let mut n: u32 = 0;
    let mut k = store::get(work, 4 * plane + p) as usize;
    // Kept, points 1 and 3: a chain in the work store (fixed memory), each contour's word the next one's number from 1 on, and 0 the end.
    while 0 < k {
        let w = starts::decode(s, store::get(work, 2 * plane + (k - 1)));
        end = write_contour(s, labels, listing, end, w, RegionId(region));
        n += 1;
        k = store::get(work, 3 * plane + (k - 1)) as usize;
    }
    store::put_all(listing, at, [region, n]);
    end
}

// The pieces of the n islands in plane 6; how many words.
pub fn write_pieces(s: Size, labels: &[u32], work: &[u32], listing: &mut [u32], n: usize) -> usize
    requires { Planned s labels.now work.now n }
    ensures { Wrote (pieces_in s labels.now work.now n) 0 listing.old listing.new result }
{
    let list = 6 * lattice::plane(s);
    let mut at: usize = 0;
    for i in 0..n {
        let p = store::get(work, list + i);
        at = write_piece(s, labels, work, listing, at, p as usize);
    }
    at
}

// How many words they are.
fn count_pieces(s: Size, labels: &[u32], work: &[u32], n: usize) -> usize
    requires { Planned s labels.now work.now n }
    ensures { result ≡ length (pieces_in s labels.now work.now n) }
{
    let mut none = [0u32; 0];
    write_pieces(s, labels, work, &mut none, n)
}

// The pieces, if the store has room for all of them; how many words.
pub fn write_listing(
    s: Size,
    labels: &[u32],
    work: &[u32],
    listing: &mut [u32],
    n: usize,
) -> Result<u32, Refusal>
    requires { Planned s labels.now work.now n }
    ensures { Answers (pieces_in s labels.now work.now n) listing.old result listing.new }
{
    let length = count_pieces(s, labels, work, n);
    if listing.len() < length {
        return Err(Refusal::ShortOutput);
    }
    let _ = write_pieces(s, labels, work, listing, n);
    Ok(length as u32)
}
