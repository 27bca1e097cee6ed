// The exports of `mosaic::job`.
ghost use Rattle.std.specs.Prelude.{◌≡◌, [], ◌∷◌};
ghost use Rattle.calls.specs.Outcome.{map_with};
ghost use Rattle.jobfile.specs.JobFile.{write as write_of};
ghost use Rattle.jobfile.specs.Salvage.{salvage as salvage_of};
ghost use Rattle.mosaic.specs.JobWords.{written_in, salvaged_in};

#[unsafe(no_mangle)]
pub extern "C" fn mosaic_write(
    width: u32,
    height: u32,
    paints: u32,
    labels: &[u32],
    work: &mut [u32],
    nodes: &mut [u32],
    segments: &mut [u32],
    points: &mut [u32],
    references: &mut [u32],
    contours: &mut [u32],
    faces: &mut [u32],
    file: &mut [u8],
    answer: &mut [u32; 8],
    length: &mut u64,
)
    ensures { written_in answer.new length.new (work.new ∷ nodes.new ∷ segments.new ∷ points.new ∷ references.new ∷ contours.new ∷ faces.new ∷ file.new ∷ []) ≡ write_of (map_with width height paints paints labels.now) work.old nodes.old segments.old points.old references.old contours.old faces.old file.old }
{
    mosaic::job::mosaic_write(
        width, height, paints, labels, work, nodes, segments, points, references, contours, faces,
        file, answer, length,
    );
}

#[unsafe(no_mangle)]
pub extern "C" fn mosaic_salvage(file: &[u8], out: &mut [u8], answer: &mut [u64; 3])
    ensures { salvaged_in answer.new out.new ≡ salvage_of file.now out.old }
{
    mosaic::job::mosaic_salvage(file, out, answer);
}
