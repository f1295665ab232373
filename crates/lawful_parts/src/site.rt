ghost use Rattle.std.specs.Prelude.{◌≡◌, ◌↔◌, IsTrue};
ghost use Rattle.lawful_parts.specs.Lawful.{IsSite};
ghost use Rattle.lawful_parts.specs.Tests.{is_site};

use crate::values::{in_limit, is_name};
use bitflags::Flags;
use tech::Site;

/// Whether each value of a site is in its set and its limit.
#[tactic(auto, using(crate::proofs::PartTests::site_is_tested))]
pub fn is_lawful_site(site: &Site) -> bool
    ensures test { result ≡ is_site site.now }
    ensures lawful { IsTrue result ↔ IsSite site.now }
{
    tested(site)
}

#[tactic(auto, unfolding(crate::specs::Tests::is_site))]
fn tested(site: &Site) -> bool
    ensures { result ≡ is_site site.now }
{
    is_name(&site.name) && site.symmetry.bits() < 8 && in_limit(site.width) && in_limit(site.height)
}
