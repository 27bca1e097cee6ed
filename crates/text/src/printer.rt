// A lent buffer, and the place in it that the next byte goes to.
ghost use Rattle.std.specs.Prelude.{◌≡◌, ◌≤◌, length};

#[derive(Drop)]
pub struct Printer<'a> {
    pub(crate) out: &'a mut [u8],
    pub(crate) at: usize,
    ghost within: { at ≤ length out.now },
}

impl<'a> Printer<'a> {
    pub fn new(out: &'a mut [u8]) -> Printer<'a>
        ensures same_buffer { result.out.ghost_name ≡ out.entry.ghost_name }
        ensures held { result.out.now ≡ out.old }
        ensures first_place { result.at ≡ 0 }
    {
        Printer { out, at: 0 }
    }
}
