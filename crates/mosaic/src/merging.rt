// Near colours become one leaf (docs/RULES.md, #106), for C programs: the answer is two words, the number and the new paint count.
ghost use Rattle.std.specs.Prelude.{◌≡◌};
ghost use Rattle.merge.specs.Merge.{merge as merge_of};
ghost use Rattle.merge.specs.Called.{answered};
ghost use Rattle.calls.specs.Mode.{map_in};

pub fn mosaic_merge(
    width: u32,
    height: u32,
    paints: u32,
    labels: &mut [u32],
    colours: &mut [u8],
    limit: i32,
    work: &mut [u32],
    regions: &mut [u32],
    answer: &mut [u32; 2],
)
    ensures { answered answer.new labels.new colours.new work.new regions.new ≡ merge_of (map_in 0 width height paints labels.old) limit colours.old work.old regions.old }
{
    let s = calls::sized(0, width, height, paints);
    *answer = match merge::merge(s, limit, labels, colours, work, regions) {
        Ok(paints) => [0, paints],
        Err(refusal) => [refusal.number(), 0],
    };
}
