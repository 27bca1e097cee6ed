// The program `textmap`: a map as text on standard input, its cut list as text on standard output.
#![tactic(auto)]

use std::io;

// One byte more than a text may have: a longer one is too big, whatever follows.
const MOST: usize = 4097;

// The cut list of a map of 16 by 16 pixels never takes more.
const ROOM: usize = 65536;

fn main(rt: HostRuntime) -> io::Result<()> {
    let mut input = [0u8; MOST];
    let got = intake::read_full(&mut rt.stdin(), &mut input)?;
    let mut out = [0u8; ROOM];
    let n = text::textmap(&input[..got], &mut out);
    rt.write_all(&out[..n])
}
