// The lines of the answer, printed from the words of the stores. A word past the end of a store is read as 0.
ghost use Rattle.std.specs.Prelude.{◌<◌};
ghost use Rattle.calls.specs.Outcome.{answer_with};
ghost use Rattle.text.specs.Output.{Printed, field_at, optional_at, reference_at, point_at, map_line, count_line, node_line, seg_line, letter, cont_line, face_lines, report};
ghost use Rattle.text.specs.Prints.{Prints};

use crate::printer::Printer;
use calls::Counts;
use lattice::Size;

// The six stores of a cut list.
#[derive(Clone, Copy)]
pub struct CutList<'a> {
    pub nodes: &'a [u32],
    pub segments: &'a [u32],
    pub points: &'a [u32],
    pub references: &'a [u32],
    pub contours: &'a [u32],
    pub faces: &'a [u32],
}

// A WORD OF A STORE

impl<'a> Printer<'a> {
    fn field_at(&mut self, words: &[u32], i: usize)
        ensures { Prints self.old (field_at words.now i) self.new }
    {
        self.field(store::get(words, i));
    }

    fn optional_at(&mut self, none: u8, words: &[u32], i: usize)
        ensures { Prints self.old (optional_at none words.now i) self.new }
    {
        self.optional(none, store::get(words, i));
    }

    fn reference_at(&mut self, words: &[u32], i: usize)
        ensures { Prints self.old (reference_at words.now i) self.new }
    {
        self.reference(store::get(words, i));
    }

    fn point_at(&mut self, points: &[u32], i: usize)
        requires { i < 8589934592 }
        ensures { Prints self.old (point_at points.now i) self.new }
    {
        self.point(store::get(points, 2 * i), store::get(points, 2 * i + 1));
    }
}

// THE MAP AND ITS COUNTS

fn map_line(printer: &mut Printer, s: Size)
    ensures { Prints printer.old (map_line s.width s.height s.paints) printer.new }
{
    printer.word(b"map");
    printer.field(s.width);
    printer.field(s.height);
    printer.field(s.paints);
    printer.byte(b'\n');
}

fn count_line(printer: &mut Printer, c: Counts)
    ensures { Prints printer.old (count_line (answer_with 0 c)) printer.new }
{
    printer.word(b"count");
    printer.field(c.nodes);
    printer.field(c.segments);
    printer.field(c.points);
    printer.field(c.references);
    printer.field(c.contours);
    printer.field(c.faces);
    printer.field(c.steps);
    printer.byte(b'\n');
}

fn outline_or_hole(printer: &mut Printer, outline: bool)
    ensures { Prints printer.old (letter outline) printer.new }
{
    if outline {
        printer.word(b" O");
    } else {
        printer.word(b" H");
    }
}

impl<'a> CutList<'a> {
    fn node_line(&self, printer: &mut Printer, i: usize)
        requires { i < 4294967296 }
        ensures { Prints printer.old (node_line self.now.nodes.now i) printer.new }
    {
        let k = 6 * i;
        printer.word(b"node");
        printer.field(i as u32);
        printer.field_at(self.nodes, k);
        printer.field_at(self.nodes, k + 1);
        printer.reference_at(self.nodes, k + 2);
        printer.reference_at(self.nodes, k + 3);
        printer.reference_at(self.nodes, k + 4);
        printer.reference_at(self.nodes, k + 5);
        printer.byte(b'\n');
    }

    fn seg_line(&self, printer: &mut Printer, i: usize)
        requires { i < 4294967296 }
        ensures { Prints printer.old (seg_line self.now.segments.now self.now.points.now i) printer.new }
    {
        let k = 8 * i;
        let first = store::get(self.segments, k);
        let count = store::get(self.segments, k + 1);
        printer.word(b"seg");
        printer.field(i as u32);
        printer.optional_at(b'-', self.segments, k + 2);
        printer.optional_at(b'-', self.segments, k + 3);
        printer.optional_at(b'.', self.segments, k + 4);
        printer.optional_at(b'.', self.segments, k + 5);
        printer.field_at(self.segments, k + 6);
        printer.field_at(self.segments, k + 7);
        printer.pieces(first, count, |printer, p| printer.point_at(self.points, p));
        printer.byte(b'\n');
    }

    // The contour k, with its mark.
    fn cont_line(&self, printer: &mut Printer, k: usize)
        requires { k < 8589934592 }
        ensures { Prints printer.old (cont_line self.now.segments.now self.now.points.now self.now.references.now self.now.contours.now k) printer.new }
    {
        let first = store::get(self.contours, 2 * k);
        let count = store::get(self.contours, 2 * k + 1);
        printer.word(b"cont");
        outline_or_hole(printer, self.outlined(k));
        printer.pieces(
            first,
            count,
            |printer, j| printer.reference_at(self.references, j),
        );
        printer.byte(b'\n');
    }

    // A face and its contours.
    fn face_lines(&self, printer: &mut Printer, i: usize)
        requires { i < 4294967296 }
        ensures { Prints printer.old (face_lines self.now.segments.now self.now.points.now self.now.references.now self.now.contours.now self.now.faces.now i) printer.new }
    {
        let k = 5 * i;
        let first = store::get(self.faces, k + 1);
        let count = store::get(self.faces, k + 2);
        printer.word(b"face");
        printer.field(i as u32);
        printer.field_at(self.faces, k);
        printer.field_at(self.faces, k + 2);
        printer.field_at(self.faces, k + 3);
        printer.field_at(self.faces, k + 4);
        printer.byte(b'\n');
        printer.pieces(first, count, |printer, c| self.cont_line(printer, c));
    }

    // THE WHOLE REPORT of a map, from the buffer's first byte on: the header, the seven counts and the words of the six stores.
    pub fn print_report(&self, out: &mut [u8], s: Size, c: Counts) -> usize
        ensures { Printed out.old 0 (report s.width s.height s.paints (answer_with 0 c) self.now.nodes.now self.now.segments.now self.now.points.now self.now.references.now self.now.contours.now self.now.faces.now) out.new result }
    {
        let mut printer = Printer::new(out);
        map_line(&mut printer, s);
        count_line(&mut printer, c);
        printer.pieces(0, c.nodes, |printer, i| self.node_line(printer, i));
        printer.pieces(0, c.segments, |printer, i| self.seg_line(printer, i));
        printer.pieces(0, c.faces, |printer, i| self.face_lines(printer, i));
        printer.at
    }
}
