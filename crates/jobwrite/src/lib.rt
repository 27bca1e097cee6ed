// A map written as a job file: the whole call without cuts through waste, then its file.
#![tactic(auto)]

ghost use Rattle.std.specs.Prelude.{◌≡◌, [], ◌∷◌};
ghost use Rattle.calls.specs.Outcome.{map_with};
ghost use Rattle.jobfile.specs.JobFile.{write as write_of};
ghost use Rattle.jobwrite.specs.Written.{job_of, written_as};

use calls::{Counts, Refused};
use jobs::write::{Job, Records};
use lattice::Size;

// The whole call's counts, and the file's length.
#[derive(Clone, Copy)]
pub struct Written {
    pub counts: Counts,
    pub length: u64,
}

fn job(s: Size, c: Counts) -> Job
    ensures { result ≡ job_of s c }
{
    Job {
        width: s.width,
        height: s.height,
        paints: s.paints,
        segments: c.segments,
        points: c.points,
        references: c.references,
        contours: c.contours,
        faces: c.faces,
    }
}

// For any map and any stores: refused as the whole call, then for more than 65,535 paints, then where the file store is short.
pub fn write(
    width: u32,
    height: u32,
    paints: u32,
    labels: &[u32],
    work: &mut [u32],
    nodes: &mut [u32],
    segments: &mut [u32],
    points: &mut [u32],
    references: &mut [u32],
    contours: &mut [u32],
    faces: &mut [u32],
    file: &mut [u8],
) -> Result<Written, Refused>
    ensures { written_as result (work.new ∷ nodes.new ∷ segments.new ∷ points.new ∷ references.new ∷ contours.new ∷ faces.new ∷ file.new ∷ []) ≡ write_of (map_with width height paints paints labels.now) work.old nodes.old segments.old points.old references.old contours.old faces.old file.old }
{
    let s = Size {
        width,
        height,
        paints,
        bound: paints,
    };
    let counted = calls::size(s, labels, work)?;
    let stores = calls::check_all(
        counted,
        nodes.len(),
        segments.len(),
        points.len(),
        references.len(),
        contours.len(),
        faces.len(),
    );
    let j = job(s, counted);
    let store = jobs::write::check_file(paints, file.len() as u64, jobs::write::file_size(j));
    counted.answer(stores.and(store))?;
    let counts = calls::whole(
        s, labels, work, nodes, segments, points, references, contours, faces,
    )?;
    let records = Records {
        segments,
        points,
        references,
        contours,
        faces,
    };
    let end = jobs::write::put_file(file, j, records);
    Ok(Written {
        counts,
        length: end as u64,
    })
}
