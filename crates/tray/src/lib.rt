// A tray of maps: many small maps over one label store and one set of stores (docs/RULES.md, #108).
#![tactic(auto)]

ghost use Rattle.std.specs.Prelude.{◌≡◌, ◌+◌, ◌*◌, ◌≤◌, length};
ghost use Rattle.rules.specs.Refusals.{number_of, number_in};
ghost use Rattle.tray.specs.Tray.{past_number, tray as tray_of};
ghost use Rattle.tray.specs.Steps.{stores_with, afterwards, LabelsWithin, Inside, Tiles, LabelsPassed, Fits, RecordsPassed};

use calls::{Counts, Refused};
use lattice::Size;
use rules::Refusal;

// Where the next map's labels start, or none behind a part that ran past the label store; then the words of each store that hold records.
#[derive(Clone, Copy)]
struct Places {
    labels: Option<usize>,
    nodes: usize,
    segments: usize,
    points: usize,
    references: usize,
    contours: usize,
    faces: usize,
}

// ONE MAP

// How many labels it takes.
pub fn pixels(s: Size) -> usize
    ensures { result ≡ s.width * s.height }
{
    (s.width as usize) * (s.height as usize)
}

// Why it is refused when its label part runs past the store.
fn past_store(s: Size) -> Refusal
    ensures { number_of result ≡ past_number s }
{
    if 16384 < s.width || 16384 < s.height {
        return Refusal::LongSide;
    }
    Refusal::LabelCount
}

// The single call, with what is left.
fn one(
    s: Size,
    p: Places,
    labels: &[u32],
    work: &mut [u32],
    nodes: &mut [u32],
    segments: &mut [u32],
    points: &mut [u32],
    references: &mut [u32],
    contours: &mut [u32],
    faces: &mut [u32],
) -> Result<Counts, Refused>
    requires labels { LabelsWithin (length labels.now) p }
    requires stores { Inside p (stores_with nodes.old segments.old points.old references.old contours.old faces.old) }
    ensures { Tiles s labels.now p work.old (stores_with nodes.old segments.old points.old references.old contours.old faces.old) work.new (stores_with nodes.new segments.new points.new references.new contours.new faces.new) result }
{
    let Some(start) = p.labels else {
        return Err(Refused::from(past_store(s)));
    };
    let size = pixels(s);
    if labels.len() - start < size {
        return Err(Refused::from(past_store(s)));
    }
    let end = start + size;
    let a = p.nodes;
    let b = p.segments;
    let c = p.points;
    let d = p.references;
    let e = p.contours;
    let f = p.faces;
    calls::whole(
        s,
        &labels[start..end],
        work,
        &mut nodes[a..],
        &mut segments[b..],
        &mut points[c..],
        &mut references[d..],
        &mut contours[e..],
        &mut faces[f..],
    )
}

// The places behind its labels, of `held` in all.
fn past_labels(p: Places, size: usize, held: usize) -> Places
    requires { LabelsWithin held p }
    ensures { LabelsPassed p size held result }
{
    let Some(start) = p.labels else {
        return p;
    };
    if held - start < size {
        return Places { labels: None, ..p };
    }
    Places {
        labels: Some(start + size),
        ..p
    }
}

// The places behind its records.
fn past_records(p: Places, answer: Result<Counts, Refused>) -> Places
    requires { Fits p answer }
    ensures { RecordsPassed p answer result }
{
    let Ok(c) = answer else {
        return p;
    };
    Places {
        nodes: p.nodes + 6 * (c.nodes as usize),
        segments: p.segments + 8 * (c.segments as usize),
        points: p.points + 2 * (c.points as usize),
        references: p.references + (c.references as usize),
        contours: p.contours + 2 * (c.contours as usize),
        faces: p.faces + 5 * (c.faces as usize),
        ..p
    }
}

// THE TRAY

// Three words for each map, in one mode; refused only for too few answer words.
pub fn tray(
    mode: u32,
    maps: &[u32],
    labels: &[u32],
    work: &mut [u32],
    nodes: &mut [u32],
    segments: &mut [u32],
    points: &mut [u32],
    references: &mut [u32],
    contours: &mut [u32],
    faces: &mut [u32],
    answers: &mut [u32],
) -> Result<(), Refusal>
    ensures { afterwards (number_in result) work.new (stores_with nodes.new segments.new points.new references.new contours.new faces.new) answers.new ≡ tray_of mode maps.now labels.now work.old (stores_with nodes.old segments.old points.old references.old contours.old faces.old) answers.old }
{
    let count = maps.len() / 3;
    if answers.len() / 8 < count {
        return Err(Refusal::ShortAnswers);
    }
    let mut p = Places {
        labels: Some(0),
        nodes: 0,
        segments: 0,
        points: 0,
        references: 0,
        contours: 0,
        faces: 0,
    };
    for i in 0..count {
        let s = calls::sized(
            mode,
            store::at(maps, 3 * i),
            store::at(maps, 3 * i + 1),
            store::at(maps, 3 * i + 2),
        );
        let answer = one(
            s, p, labels, work, nodes, segments, points, references, contours, faces,
        );
        store::put_all(answers, 8 * i, calls::words(answer));
        p = past_records(past_labels(p, pixels(s), labels.len()), answer);
    }
    Ok(())
}
