// The header and the lines of a text, read from a place on; each function answers the place that follows what it read.
ghost use Rattle.std.specs.Prelude.{◌<◌, ◌≤◌, length, drop};
ghost use Rattle.text.specs.Grammar.{read_header, line, lines};
ghost use Rattle.text.specs.Places.{HeadIs, PlaceIs, LinesRead};

use crate::scan;
use lattice::{OUTSIDE, Size};

pub fn header(text: &[u8]) -> Option<(Size, usize)>
    ensures { HeadIs text.now (read_header text.now) result }
{
    let width = scan::number_at(text, 0, b' ', u32::MAX)?;
    let height = scan::number_at(text, width.next, b' ', u32::MAX)?;
    let paints = scan::number_at(text, height.next, b'\n', u32::MAX)?;
    let size = Size {
        width: width.value,
        height: height.value,
        paints: paints.value,
        bound: OUTSIDE,
    };
    Some((size, paints.next))
}

// The newline of a line with no entry.
fn newline_at(text: &[u8], at: usize) -> Option<usize>
    requires { at ≤ length text.now }
    ensures { PlaceIs text.now (line 0 (drop at text.now)).rest result }
{
    if *text.get(at)? == b'\n' {
        return Some(at + 1);
    }
    None
}

// A line of one entry or more.
fn entries_at(
    text: &[u8],
    at: usize,
    width: usize,
    labels: &mut [u32],
    base: usize,
) -> Option<usize>
    requires { (at ≤ length text.now) × (0 < width) × (width ≤ 16) × (base ≤ 256) }
    ensures { LinesRead text.now (line width (drop at text.now)) labels.old base labels.new result }
{
    let last = width - 1;
    let mut place = at;
    for x in 0..last {
        let label = scan::label_at(text, place, b' ')?;
        store::put(labels, base + x, label.value);
        place = label.next;
    }
    let label = scan::label_at(text, place, b'\n')?;
    store::put(labels, base + last, label.value);
    Some(label.next)
}

fn line_at(text: &[u8], at: usize, width: usize, labels: &mut [u32], base: usize) -> Option<usize>
    requires { (at ≤ length text.now) × (width ≤ 16) × (base ≤ 256) }
    ensures { LinesRead text.now (line width (drop at text.now)) labels.old base labels.new result }
{
    if width == 0 {
        return newline_at(text, at);
    }
    entries_at(text, at, width, labels, base)
}

pub fn lines_at(
    text: &[u8],
    at: usize,
    width: usize,
    height: usize,
    labels: &mut [u32],
) -> Option<usize>
    requires { (at ≤ length text.now) × (width ≤ 16) × (height ≤ 16) }
    ensures { LinesRead text.now (lines width height (drop at text.now)) labels.old 0 labels.new result }
{
    let mut place = at;
    for y in 0..height {
        place = line_at(text, place, width, labels, y * width)?;
    }
    Some(place)
}
