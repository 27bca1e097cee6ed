// The listing of the pieces whose labels are named, for C programs (docs/RULES.md, #110). The answer is a pointer to two words.
ghost use Rattle.std.specs.Prelude.{◌≡◌, [], ◌∷◌};
ghost use Rattle.benches.specs.Listing.{listing as listing_call};
ghost use Rattle.listing.specs.Listed.{listed_words};
ghost use Rattle.calls.specs.Mode.{map_in};

pub fn mosaic_listing(
    mode: u32,
    width: u32,
    height: u32,
    paints: u32,
    labels: &[u32],
    work: &mut [u32],
    named: &[u32],
    words: &mut [u32],
    answer: &mut [u32; 2],
)
    ensures { listed_words answer.new (work.new ∷ words.new ∷ []) ≡ listing_call (map_in mode width height paints labels.now) work.old named.now words.old }
{
    let s = calls::sized(mode, width, height, paints);
    *answer = match listing::listing(s, labels, work, named, words) {
        Ok(length) => [0, length],
        Err(refusal) => [refusal.number(), 0],
    };
}
