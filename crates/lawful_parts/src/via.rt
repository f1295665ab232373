ghost use Rattle.std.specs.Prelude.{◌≡◌, ◌↔◌, IsTrue, is_none};
ghost use Rattle.lawful_parts.specs.Lawful.{IsTechVia, orient_of};
ghost use Rattle.lawful_parts.specs.Tests.{is_tech_via};

use crate::shapes::are_lawful_shapes;
use crate::values::is_name;
use odb_base::{Orient, Worded};
use tech::{Tech, TechVia};

/// Whether a via may stand in the technology: its name is no orientation, and its shapes are lawful there.
#[tactic(auto, using(crate::proofs::PartTests::via_is_tested))]
pub fn is_lawful_via(tech: &Tech, via: &TechVia) -> bool
    ensures test { result ≡ is_tech_via tech.now via.now }
    ensures lawful { IsTrue result ↔ IsTechVia tech.now via.now }
{
    tested(tech, via)
}

#[tactic(auto, unfolding(crate::specs::Tests::is_tech_via))]
fn tested(tech: &Tech, via: &TechVia) -> bool
    ensures { result ≡ is_tech_via tech.now via.now }
{
    is_name(&via.name)
        && is_no_orient(via.name.bytes())
        && are_lawful_shapes(tech, via.shapes.items())
}

fn is_no_orient(name: &[u8]) -> bool
    ensures { result ≡ is_none (orient_of name.now) }
{
    Orient::from_word(name).is_none()
}
