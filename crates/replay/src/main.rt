// Runs the answers of the Rust, which stand as data in the file `stdin`, through the library, and compares them word for word.
// `differential/run answers` wrote that file; a map has sides up to 10 there.
#![tactic(auto)]

ghost use Rattle.std.specs.Prelude.{◌≡◌, ◌≤◌, length};

use calls::{Counts, Refused};
use lattice::Size;
use std::io;

// What a store holds before a call: a word that no record of the data has.
const OLD: u32 = 3000000000;

// DATA

// The bytes that are left of the data, or None once more was read than there is.
#[derive(Clone, Copy)]
struct Data<'a>(Option<&'a [u8]>);

impl Data<'_> {
    // The next word, 0 past the end: a byte below 254 is itself, 254 is 4294967295, and 255 stands before four bytes.
    fn word(&mut self) -> u32 {
        let Some((code, rest)) = self.0.and_then(|bytes| bytes.split_first()) else {
            self.0 = None;
            return 0;
        };
        self.0 = Some(rest);
        match *code {
            255 => {
                let mut four = [0; 4];
                for (byte, behind) in four.iter_mut().zip(rest) {
                    *byte = *behind;
                }
                self.0 = rest.get(4..);
                u32::from_le_bytes(four)
            }
            254 => u32::MAX,
            byte => u32::from(byte),
        }
    }

    // The counts of a map.
    fn counts(&mut self) -> Counts {
        Counts {
            nodes: self.word(),
            segments: self.word(),
            points: self.word(),
            references: self.word(),
            contours: self.word(),
            faces: self.word(),
            steps: self.word(),
        }
    }
}

// A map of the data, and what the calls count in it.
#[derive(Drop)]
struct Map<'a> {
    size: Size,
    labels: &'a [u32],
    counts: Counts,
}

// STORES

// Room for any map of the data, and a few words more.
#[derive(Drop)]
struct Stores {
    work: [u32; 971],
    nodes: [u32; 731],
    segments: [u32; 1763],
    points: [u32; 883],
    references: [u32; 443],
    contours: [u32; 243],
    faces: [u32; 505],
}

impl Stores {
    fn new() -> Stores {
        Stores {
            work: [OLD; 971],
            nodes: [OLD; 731],
            segments: [OLD; 1763],
            points: [OLD; 883],
            references: [OLD; 443],
            contours: [OLD; 243],
            faces: [OLD; 505],
        }
    }

    // Old words everywhere, for the next call.
    fn renew(&mut self) {
        self.work.fill(OLD);
        self.nodes.fill(OLD);
        self.segments.fill(OLD);
        self.points.fill(OLD);
        self.references.fill(OLD);
        self.contours.fill(OLD);
        self.faces.fill(OLD);
    }
}

// COMPARED

// The places in so many columns and rows; none where there are more than 11, and the library's refusal is then a difference.
fn area(columns: usize, rows: usize) -> usize
    ensures { result ≤ 121 }
{
    if columns > 11 || rows > 11 {
        return 0;
    }
    columns * rows
}

// What is left of the data, and what was compared.
struct Replay<'a> {
    data: Data<'a>,
    words: usize,
    differences: usize,
}

impl Replay<'_> {
    fn word(&mut self, found: u32, wanted: u32) {
        self.words = self.words.wrapping_add(1);
        if found != wanted {
            self.differences = self.differences.wrapping_add(1);
        }
    }

    // Words that are all to be the same.
    fn all(&mut self, found: &[u32], wanted: u32) {
        for word in found {
            self.word(*word, wanted);
        }
    }

    // A store that holds n words of the data, and behind them old words.
    fn written(&mut self, found: &[u32], n: usize) {
        for i in 0..n {
            let wanted = self.data.word();
            if let Some(word) = found.get(i) {
                self.word(*word, wanted);
            }
        }
        self.all(found.get(n..).unwrap_or(&[]), OLD);
    }

    // The stores of the graph, which are next in the data.
    fn drawn(&mut self, stores: &Stores, counts: Counts) {
        self.written(&stores.nodes, 6 * counts.nodes as usize);
        self.written(&stores.segments, 8 * counts.segments as usize);
        self.written(&stores.points, 2 * counts.points as usize);
    }

    // An answer, and a work store that was cleared as far as the map asks.
    fn answered(
        &mut self,
        found: Result<Counts, Refused>,
        counts: Counts,
        stores: &Stores,
        s: Size,
    ) {
        for (found, wanted) in calls::words(found).iter().zip(calls::words(Ok(counts))) {
            self.word(*found, wanted);
        }
        let corners = area(s.width as usize + 1, s.height as usize + 1);
        let (cleared, rest) = stores.work.split_at(8 * corners);
        self.all(cleared, 0);
        self.all(rest, OLD);
    }

    // The call size.
    fn size(&mut self, map: &Map, stores: &mut Stores) {
        stores.renew();
        let found = calls::size(map.size, map.labels, &mut stores.work);
        self.answered(found, map.counts, stores, map.size);
    }

    // The call graph.
    fn graph(&mut self, map: &Map, stores: &mut Stores) {
        stores.renew();
        let found = calls::graph(
            map.size,
            map.labels,
            &mut stores.work,
            &mut stores.nodes,
            &mut stores.segments,
            &mut stores.points,
        );
        let few = Counts {
            references: 0,
            contours: 0,
            faces: 0,
            ..map.counts
        };
        self.answered(found, few, stores, map.size);
        self.drawn(stores, map.counts);
    }

    // The call whole.
    fn whole(&mut self, map: &Map, stores: &mut Stores) {
        stores.renew();
        let found = calls::whole(
            map.size,
            map.labels,
            &mut stores.work,
            &mut stores.nodes,
            &mut stores.segments,
            &mut stores.points,
            &mut stores.references,
            &mut stores.contours,
            &mut stores.faces,
        );
        let counts = map.counts;
        self.answered(found, counts, stores, map.size);
        self.drawn(stores, counts);
        self.written(&stores.references, counts.references as usize);
        self.written(&stores.contours, 2 * counts.contours as usize);
        self.written(&stores.faces, 5 * counts.faces as usize);
    }

    // The three calls on the next map of the data.
    fn map(&mut self, stores: &mut Stores) {
        let size = Size {
            width: self.data.word(),
            height: self.data.word(),
            paints: self.data.word(),
            bound: self.data.word(),
        };
        let mut labels = [0; 121];
        let labels = &mut labels[..area(size.width as usize, size.height as usize)];
        for label in labels.iter_mut() {
            *label = self.data.word();
        }
        let map = Map {
            size,
            labels,
            counts: self.data.counts(),
        };
        self.size(&map, stores);
        // The stores of the graph stand in the data once, for both calls.
        let records = self.data;
        self.graph(&map, stores);
        self.data = records;
        self.whole(&map, stores);
    }
}

// Room for the data.
// Kept, point 8: a function of its own, since with the list of zeros in `main` the goal `slice_bounds-read_full-end` did not close.
fn room() -> [u8; 1000000]
    ensures { 1000000 ≡ length result }
{
    [0; 1000000]
}

fn main(rt: HostRuntime) -> io::Result<()> {
    let mut bytes = room();
    let n = intake::read_full(&mut rt.stdin(), &mut bytes)?;
    let mut replay = Replay {
        data: Data(Some(&bytes[..n])),
        words: 0,
        differences: 0,
    };
    let mut stores = Stores::new();
    let maps = replay.data.word();
    for _ in 0..maps {
        replay.map(&mut stores);
    }
    let Replay {
        data,
        words,
        differences,
    } = replay;
    // Data that ends early or late is one difference more.
    let differences = match data.0 {
        Some([]) => differences,
        _ => differences.wrapping_add(1),
    };
    println!(rt; "{maps} maps, {words} words compared, {differences} differences")
}
