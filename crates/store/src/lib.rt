// Lent stores of words: what lies past the end is read as 0, and a write there changes nothing.
#![tactic(auto)]

ghost use Rattle.std.specs.Prelude.{◌≡◌, [], ◌∷◌, ◌+◌, ◌<◌, ◌≤◌, length, get_or, set, replicate};
ghost use Rattle.std.proofs.lemmas.List.Edits.{sets};

// The word i, which the store has.
pub fn at(words: &[u32], i: usize) -> u32
    requires { i < length words.now }
    ensures { result ≡ get_or words.now i 0 }
{
    words[i]
}

// The word i, or 0 where the store has no such word.
pub fn get(words: &[u32], i: usize) -> u32
    ensures { result ≡ get_or words.now i 0 }
{
    words.get(i).copied().unwrap_or(0)
}

// The word v at i, or nothing where the store has no such word.
pub fn put(words: &mut [u32], i: usize, v: u32)
    ensures { words.new ≡ set words.old i v }
{
    if i < words.len() {
        words[i] = v;
    }
}

// These values from i on, as far as the store has places for them.
pub fn put_all<const N: usize>(words: &mut [u32], i: usize, values: [u32; N])
    ensures { words.new ≡ sets words.old i values.entry }
{
    let room = words.len().saturating_sub(i);
    for (k, &v) in values.iter().enumerate() {
        if k < room {
            words[i + k] = v;
        }
    }
}

// The word v at each of the n places from `from` on.
pub fn fill(words: &mut [u32], from: usize, n: usize, v: u32)
    requires { from + n ≤ length words.old }
    ensures { words.new ≡ sets words.old from (replicate n v) }
{
    words[from..from + n].fill(v);
}
