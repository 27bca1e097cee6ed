// A map from layers: the last layer with a 1 over a pixel gives it its label (the Rust's `LabelMap::from_segmentation`).
#![tactic(auto)]

ghost use Rattle.std.specs.Prelude.{◌≡◌, cond, ◌+◌, ◌*◌, ◌<◌, ◌≤◌, eqb, fold, length, max};
ghost use Rattle.rules.specs.Calls.{first_hit};
ghost use Rattle.rules.specs.Refusals.{number_in};
ghost use Rattle.layers.specs.Layers.{wide, high, mask_at, above_one, layer_checks, flatten as flatten_of};
ghost use Rattle.layers.specs.Painting.{SpanIs, Rowed, LayerFits, Layered, OneAsks, OneMore, Whole, Painted, flat};

use rules::Refusal;

// CHECKS

// The highest byte. It reads on past a byte above 1: without a way out of the loop, many bytes are compared at once.
fn highest(masks: &[u8]) -> u8
    ensures { result ≡ fold max 0 masks.now }
{
    masks.iter().fold(0u8, |highest, byte| highest.max(*byte))
}

// A byte is above 1.
fn above_one(masks: &[u8]) -> bool
    ensures { result ≡ above_one masks.now }
{
    1 < highest(masks)
}

// The mask bytes of the layer i.
fn area(layers: &[u32], i: usize) -> usize
    requires { 4 * i + 3 < length layers.now }
    ensures { result ≡ wide layers.now i * high layers.now i }
{
    (store::at(layers, 4 * i + 2) as usize) * (store::at(layers, 4 * i + 3) as usize)
}

// The masks of the layers are so many bytes. Their sum may be too large for a word, what is left of the bytes is not.
fn masks_whole(layers: &[u32], count: usize, bytes: usize) -> bool
    requires { 4 * count ≤ length layers.now }
    ensures { result ≡ eqb (mask_at layers.now count) bytes }
{
    let mut left = bytes;
    for i in 0..count {
        let a = area(layers, i);
        if left < a {
            return false;
        }
        left -= a;
    }
    left == 0
}

// PAINTING

// What of a layer lies over the canvas, in one direction: from `start` on, `count` columns (or rows), the layer's own from `skip` on.
#[derive(Clone, Copy)]
struct Span {
    start: usize,
    skip: usize,
    count: usize,
}

const NOTHING: Span = Span {
    start: 0,
    skip: 0,
    count: 0,
};

fn clipped(word: u32, n: u32, side: u32) -> Span
    ensures { SpanIs word n side result }
{
    let raised = (word as usize + 2147483648) % 4294967296;
    let own = n as usize;
    let across = side as usize;
    if raised < 2147483648 {
        let skip = 2147483648 - raised;
        if own <= skip {
            return NOTHING;
        }
        return Span {
            start: 0,
            skip,
            count: across.min(own - skip),
        };
    }
    let start = raised - 2147483648;
    if across <= start {
        return NOTHING;
    }
    Span {
        start,
        skip: 0,
        count: own.min(across - start),
    }
}

// The label of a pixel under a mask's byte.
fn over(bit: u8, number: u32, old: u32) -> u32
    ensures { result ≡ cond (eqb bit 1) number old }
{
    if bit == 1 { number } else { old }
}

// A row of n pixels from the place `to` on, by the mask bytes from the place `from` on. Every label is written, the old one too: so
// many pixels are painted at once.
fn paint_row(labels: &mut [u32], masks: &[u8], to: usize, from: usize, n: usize, number: u32)
    requires { (to + n ≤ length labels.old) × (from + n ≤ length masks.now) }
    ensures { Rowed masks.now to from n number labels.old labels.new }
{
    for k in 0..n {
        labels[to + k] = over(masks[from + k], number, labels[to + k]);
    }
}

// What of a layer lies over the canvas, and its mask: `across` bytes to a row, from the byte `mask` on.
#[derive(Clone, Copy)]
struct Stamp {
    cols: Span,
    rows: Span,
    across: u32,
    mask: usize,
}

fn paint_layer(labels: &mut [u32], masks: &[u8], width: u32, stamp: Stamp, number: u32)
    requires { LayerFits width stamp (length masks.now) (length labels.old) }
    ensures { Layered masks.now width stamp number stamp.rows.count labels.old labels.new }
{
    let Stamp {
        cols,
        rows,
        across,
        mask,
    } = stamp;
    if cols.count == 0 {
        return;
    }
    for k in 0..rows.count {
        let to = (rows.start + k) * (width as usize) + cols.start;
        let from = mask + ((rows.skip + k) * (across as usize) + cols.skip);
        paint_row(labels, masks, to, from, cols.count, number);
    }
}

// The layer i, whose mask starts at the byte `mask`.
fn paint_one(
    width: u32,
    height: u32,
    layers: &[u32],
    masks: &[u8],
    labels: &mut [u32],
    i: usize,
    mask: usize,
)
    requires { OneAsks layers.now masks.now width height i mask labels.old }
    ensures { OneMore layers.now masks.now width height i labels.old labels.new }
{
    let x = store::at(layers, 4 * i);
    let y = store::at(layers, 4 * i + 1);
    let w = store::at(layers, 4 * i + 2);
    let h = store::at(layers, 4 * i + 3);
    let stamp = Stamp {
        cols: clipped(x, w, width),
        rows: clipped(y, h, height),
        across: w,
        mask,
    };
    paint_layer(labels, masks, width, stamp, i as u32);
}

// All layers, one after the other, over a canvas of OUTSIDE.
fn paint(width: u32, height: u32, layers: &[u32], masks: &[u8], labels: &mut [u32], count: usize)
    requires { Whole layers.now masks.now width height count labels.old }
    ensures { Painted layers.now masks.now width height count labels.new }
{
    labels.fill(lattice::OUTSIDE);
    let mut mask: usize = 0;
    for i in 0..count {
        paint_one(width, height, layers, masks, labels, i, mask);
        mask += area(layers, i);
    }
}

// The first check that hits.
#[tactic(auto, using(crate::proofs::Refusals::each_check))]
fn check(
    width: u32,
    height: u32,
    layers: &[u32],
    masks: &[u8],
    labels: &[u32],
) -> Result<(), Refusal>
    ensures { number_in result ≡ first_hit (layer_checks width height layers.now masks.now labels.now) }
{
    if 16384 < width || 16384 < height {
        return Err(Refusal::LongSide);
    }
    if 65535 < layers.len() / 4
        || layers.len() % 4 != 0
        || !masks_whole(layers, layers.len() / 4, masks.len())
        || above_one(masks)
        || labels.len() != (width as usize) * (height as usize)
    {
        return Err(Refusal::BadLayers);
    }
    Ok(())
}

// THE CALL: the labels of the canvas; the paint count is the number of layers.
pub fn flatten(
    width: u32,
    height: u32,
    layers: &[u32],
    masks: &[u8],
    labels: &mut [u32],
) -> Result<(), Refusal>
    ensures { flat (number_in result) labels.new ≡ flatten_of width height layers.now masks.now labels.old }
{
    check(width, height, layers, masks, labels)?;
    paint(width, height, layers, masks, labels, layers.len() / 4);
    Ok(())
}
