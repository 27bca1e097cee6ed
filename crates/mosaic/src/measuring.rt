// The call `veneer` for C programs: the sum of each face.
ghost use Rattle.std.specs.Prelude.{◌≡◌};
ghost use Rattle.veneer.specs.Sums.{veneer as veneer_of};
ghost use Rattle.veneer.specs.Steps.{measured_words};
ghost use Rattle.calls.specs.Mode.{map_in};

pub fn mosaic_veneer(
    mode: u32,
    width: u32,
    height: u32,
    paints: u32,
    labels: &[u32],
    work: &mut [u32],
    sums: &mut [i64],
    answer: &mut [u32; 8],
)
    ensures { measured_words answer.new work.new sums.new ≡ veneer_of (map_in mode width height paints labels.now) work.old sums.old }
{
    let s = calls::sized(mode, width, height, paints);
    *answer = calls::words(veneer::veneer(s, labels, work, sums));
}
