// Job files for C programs: a map written, and half a file salvaged. Lengths of files are 64-bit numbers.
ghost use Rattle.std.specs.Prelude.{◌≡◌, [], ◌∷◌};
ghost use Rattle.calls.specs.Outcome.{map_with};
ghost use Rattle.jobfile.specs.JobFile.{write as write_of};
ghost use Rattle.jobfile.specs.Salvage.{salvage as salvage_of};
ghost use Rattle.mosaic.specs.JobWords.{written_in, salvage_words, salvaged_in};

use jobs::salvage::Kept;
use rules::Refusal;

// In the mode without cuts through waste, so it takes none.
pub fn mosaic_write(
    width: u32,
    height: u32,
    paints: u32,
    labels: &[u32],
    work: &mut [u32],
    nodes: &mut [u32],
    segments: &mut [u32],
    points: &mut [u32],
    references: &mut [u32],
    contours: &mut [u32],
    faces: &mut [u32],
    file: &mut [u8],
    answer: &mut [u32; 8],
    length: &mut u64,
)
    ensures { written_in answer.new length.new (work.new ∷ nodes.new ∷ segments.new ∷ points.new ∷ references.new ∷ contours.new ∷ faces.new ∷ file.new ∷ []) ≡ write_of (map_with width height paints paints labels.now) work.old nodes.old segments.old points.old references.old contours.old faces.old file.old }
{
    let written = jobwrite::write(
        width, height, paints, labels, work, nodes, segments, points, references, contours, faces,
        file,
    );
    match written {
        Ok(w) => {
            *answer = calls::words(Ok(w.counts));
            *length = w.length;
        }
        Err(refused) => {
            *answer = calls::words(Err(refused));
            *length = 0;
        }
    }
}

// The number, the length kept and the kind of the first record dropped.
fn put_salvaged(answer: &mut [u64; 3], r: Result<Kept, Refusal>)
    ensures { answer.new ≡ salvage_words r }
{
    *answer = match r {
        Ok(kept) => [0, kept.length as u64, kept.kind as u64],
        Err(refusal) => [refusal.number() as u64, 0, 0],
    };
}

pub fn mosaic_salvage(file: &[u8], out: &mut [u8], answer: &mut [u64; 3])
    ensures { salvaged_in answer.new out.new ≡ salvage_of file.now out.old }
{
    put_salvaged(answer, jobs::salvage::salvage(file, out));
}
