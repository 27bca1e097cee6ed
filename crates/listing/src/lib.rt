// A bench's listing of its pieces, by unit steps, from the labels and the work store alone (docs/RULES.md, #110).
#![tactic(auto)]

pub mod marks;
pub mod names;
pub mod prepare;
pub mod scan;
pub mod starts;
pub mod write;

ghost use Rattle.std.specs.Prelude.{◌≡◌, [], ◌∷◌};
ghost use Rattle.rules.specs.Calls.{map_checks, first_hit};
ghost use Rattle.rules.specs.Refusals.{number_in};
ghost use Rattle.benches.specs.Listing.{listing as listing_call};
ghost use Rattle.calls.specs.Outcome.{map_of};
ghost use Rattle.listing.specs.Listed.{listed};

use lattice::Size;
use rules::Refusal;

// 1, 2 and 3, as every call that looks at a map asks them: a function of its own, so that one that answers 13 for any of them breaks this clause.
fn check(s: Size, labels: &[u32], work: &[u32]) -> Result<(), Refusal>
    ensures { number_in result ≡ first_hit (map_checks (map_of s labels.now) work.now) }
{
    calls::check_map(s, labels, work)
}

// The listing of the pieces whose labels are named, and its length. A name may stand twice, and may be any word.
pub fn listing(
    s: Size,
    labels: &[u32],
    work: &mut [u32],
    named: &[u32],
    words: &mut [u32],
) -> Result<u32, Refusal>
    ensures { listed result (work.new ∷ words.new ∷ []) ≡ listing_call (map_of s labels.now) work.old named.now words.old }
{
    check(s, labels, work)?;
    let n = prepare::prepare(s, labels, work, named);
    let length = write::write_listing(s, labels, work, words, n);
    calls::clear(s, work);
    length
}
