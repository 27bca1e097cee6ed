// A tray of maps for C programs: many small maps over one label store and one set of stores (docs/RULES.md, #108).
ghost use Rattle.std.specs.Prelude.{◌≡◌};
ghost use Rattle.tray.specs.Tray.{tray as tray_of};
ghost use Rattle.tray.specs.Steps.{stores_with, afterwards};

pub fn mosaic_tray(
    mode: u32,
    maps: &[u32],
    labels: &[u32],
    work: &mut [u32],
    nodes: &mut [u32],
    segments: &mut [u32],
    points: &mut [u32],
    references: &mut [u32],
    contours: &mut [u32],
    faces: &mut [u32],
    answers: &mut [u32],
) -> u32
    ensures { afterwards result work.new (stores_with nodes.new segments.new points.new references.new contours.new faces.new) answers.new ≡ tray_of mode maps.now labels.now work.old (stores_with nodes.old segments.old points.old references.old contours.old faces.old) answers.old }
{
    crate::number(tray::tray(
        mode, maps, labels, work, nodes, segments, points, references, contours, faces, answers,
    ))
}
