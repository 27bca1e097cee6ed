// A map from layers, for C programs.
ghost use Rattle.std.specs.Prelude.{◌≡◌};
ghost use Rattle.layers.specs.Layers.{flatten as flatten_of};
ghost use Rattle.layers.specs.Painting.{flat};

pub fn mosaic_layers(
    width: u32,
    height: u32,
    layers: &[u32],
    masks: &[u8],
    labels: &mut [u32],
) -> u32
    ensures { flat result labels.new ≡ flatten_of width height layers.now masks.now labels.old }
{
    crate::number(layers::flatten(width, height, layers, masks, labels))
}
