ghost use Rattle.std.specs.Prelude.{◌≡◌, ◌↔◌, IsTrue};
ghost use Rattle.lawful_parts.specs.Lawful.{IsLayer};
ghost use Rattle.lawful_parts.specs.Tests.{is_layer};

use crate::values::{in_limit, is_name};
use tech::Layer;

/// Whether each value of a layer is in its limit.
#[tactic(auto, using(crate::proofs::PartTests::layer_is_tested))]
pub fn is_lawful_layer(layer: &Layer) -> bool
    ensures test { result ≡ is_layer layer.now }
    ensures lawful { IsTrue result ↔ IsLayer layer.now }
{
    tested(layer)
}

#[tactic(auto, unfolding(crate::specs::Tests::is_layer))]
fn tested(layer: &Layer) -> bool
    ensures { result ≡ is_layer layer.now }
{
    is_name(&layer.name)
        && in_limit(layer.pitch_x)
        && in_limit(layer.pitch_y)
        && in_limit(layer.width)
        && in_limit(layer.spacing)
}
