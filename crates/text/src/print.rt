// Bytes put into a printer's buffer. What has no room is dropped.
ghost use Rattle.std.specs.Prelude.{◌+◌, ◌<◌, ℕ, List, [], ◌∷◌};
ghost use Rattle.text.specs.Output.{shown, pieces as pieces_of, field as field_of, optional as optional_of, reference as reference_of, point as point_of};
ghost use Rattle.text.specs.Prints.{Prints};

use crate::printer::Printer;
use lattice::NONE;

impl<'a> Printer<'a> {
    pub fn byte(&mut self, b: u8)
        ensures { Prints self.old (b ∷ []) self.new }
    {
        if self.at < self.out.len() {
            self.out[self.at] = b;
            self.at += 1;
        }
    }

    pub fn word(&mut self, word: &[u8])
        ensures { Prints self.old word.now self.new }
    {
        for b in word {
            self.byte(*b);
        }
    }

    pub fn number(&mut self, n: u32)
        ensures { Prints self.old (shown n) self.new }
    {
        if n >= 10 {
            self.number(n / 10);
        }
        self.byte(b'0' + (n % 10) as u8);
    }

    // A space and a number.
    pub fn field(&mut self, n: u32)
        ensures { Prints self.old (field_of n) self.new }
    {
        self.byte(b' ');
        self.number(n);
    }

    // A space and a number, or the byte for none.
    pub fn optional(&mut self, none: u8, n: u32)
        ensures { Prints self.old (optional_of none n) self.new }
    {
        if n == NONE {
            self.byte(b' ');
            self.byte(none);
            return;
        }
        self.field(n);
    }

    // A space, a segment's number and its way, or `-` for none.
    pub fn reference(&mut self, r: u32)
        ensures { Prints self.old (reference_of r) self.new }
    {
        if r == NONE {
            self.word(b" -");
            return;
        }
        self.field(r / 2);
        self.byte(if r % 2 == 0 { b'f' } else { b'r' });
    }

    // A space and x,y.
    pub fn point(&mut self, x: u32, y: u32)
        ensures { Prints self.old (point_of x y) self.new }
    {
        self.field(x);
        self.byte(b',');
        self.number(y);
    }

    // What `print` prints for each number from `first` on, `count` of them.
    pub fn pieces<F: Fn(&mut Printer, usize)>(&mut self, first: u32, count: u32, print: F)
        ghost piece: { ℕ → List ℕ }
        requires callable { (p : _) (i : ℕ) → i < first + count → i < first + 4294967296 → F.pre print p i }
        requires prints { (p : _) (i : ℕ) (p' : _) → i < first + count → i < first + 4294967296 → F.post print p i tt p' → Prints p.now (piece i) p'.now }
        ensures { Prints self.old (pieces_of piece count first) self.new }
    {
        for i in 0..count {
            print(self, first as usize + i as usize);
        }
    }
}
