// Job files: words and kinds of records in a slice of bytes, and the test of the first record.
#![tactic(auto)]

pub mod salvage;
pub mod write;

ghost use Rattle.std.specs.Prelude.{◌≡◌, ◌+◌, ◌<◌, length};
ghost use Rattle.jobfile.specs.Entries.{word_at, kind_of, headed as is_headed};
ghost use Rattle.jobs.specs.Kinds.{number_of, Numbered};

// What a record holds, by the number of its kind in the file.
#[derive(Clone, Copy, Debug, PartialEq, Eq)]
pub enum Kind {
    Map = 1,
    Segment,
    Face,
}

impl Kind {
    pub fn number(self) -> u8
        ensures { result ≡ number_of self }
    {
        self as u8
    }

    pub fn of(number: u32) -> Option<Kind>
        ensures { Numbered number result }
    {
        match number {
            1 => Some(Kind::Map),
            2 => Some(Kind::Segment),
            3 => Some(Kind::Face),
            _ => None,
        }
    }
}

// The word of the four bytes from i on.
#[tactic(auto, unfolding(jobfile::specs::Entries::word_at))]
pub fn word_at(b: &[u8], i: usize) -> u32
    requires { i + 3 < length b.now }
    ensures { result ≡ word_at b.now i }
{
    u32::from_le_bytes([b[i], b[i + 1], b[i + 2], b[i + 3]])
}

// The number of the first record's kind.
#[tactic(auto, unfolding(jobfile::specs::Entries::kind_of))]
pub fn kind_number(b: &[u8]) -> u32
    requires { 5 < length b.now }
    ensures { result ≡ kind_of b.now }
{
    u16::from_le_bytes([b[4], b[5]]) as u32
}

// The first record is a whole kind 1 with allowed sides and paint count.
#[tactic(auto, unfolding(jobfile::specs::Entries::headed, jobfile::specs::Entries::body_length))]
pub fn headed(b: &[u8]) -> bool
    ensures { result ≡ is_headed b.now }
{
    18 <= b.len()
        && word_at(b, 0) == 12
        && kind_number(b) == 1
        && word_at(b, 6) <= 16384
        && word_at(b, 10) <= 16384
        && word_at(b, 14) <= 65535
}
