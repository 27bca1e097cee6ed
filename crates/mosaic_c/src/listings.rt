// The exports of `mosaic::listings`.
ghost use Rattle.std.specs.Prelude.{◌≡◌, [], ◌∷◌};
ghost use Rattle.benches.specs.Listing.{listing as listing_call};
ghost use Rattle.listing.specs.Listed.{listed_words};
ghost use Rattle.calls.specs.Mode.{map_in};

#[unsafe(no_mangle)]
pub extern "C" fn mosaic_listing(
    mode: u32,
    width: u32,
    height: u32,
    paints: u32,
    labels: &[u32],
    work: &mut [u32],
    named: &[u32],
    words: &mut [u32],
    answer: &mut [u32; 2],
)
    ensures { listed_words answer.new (work.new ∷ words.new ∷ []) ≡ listing_call (map_in mode width height paints labels.now) work.old named.now words.old }
{
    mosaic::listings::mosaic_listing(
        mode, width, height, paints, labels, work, named, words, answer,
    );
}
