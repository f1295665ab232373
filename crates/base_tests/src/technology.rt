ghost use Rattle.std.specs.Prelude.{◌≡◌, IfOk};

use bitflags::Flags;
use odb_base::{LayerDirection, LayerId, LayerType, List, Name, SiteClass, SiteId, ViaId};
use std::alloc::Global;
use std::process::Abort;
use std::test::Fail;
use tech::{LIST_LIMIT, Layer, Site, Symmetry, Tech, TechVia};

#[test]
fn a_technology_is_stated_and_cut(rt: HostRuntime) -> Result<(), Fail> {
    let mut tech = Tech::new(rt.alloc());
    let stated = state(&rt, rt.alloc(), &mut tech);
    finds(&rt, &tech);
    shows(&rt, &tech);
    cut(&rt, &mut tech);
    drop(tech);
    stated
}

// Units, two layers, a via and a site.
fn state(rt: &impl Abort, alloc: Global, tech: &mut Tech) -> Result<(), Fail> {
    assert_eq!(rt; tech.units(), 0);
    tech.set_units(2000);
    assert_eq!(rt; tech.units(), 2000);
    is_next_layer(rt, alloc, tech, b"met1", 1)?;
    is_next_layer(rt, alloc, tech, b"via1", 2)?;
    is_first_via(rt, alloc, tech, b"met1")?;
    is_first_site(rt, alloc, tech, b"met1")
}

fn is_next_layer(
    rt: &impl Abort,
    alloc: Global,
    tech: &mut Tech,
    name: &[u8],
    id: u32,
) -> Result<(), Fail> {
    let [layers, _, _] = tech.counts();
    assert!(rt; layers < LIST_LIMIT && tech.find_layer(name).is_none());
    let entered = tech.add_layer(layer(alloc, name)?)?;
    assert_eq!(rt; entered, LayerId(id));
    Ok(())
}

fn is_first_via(rt: &impl Abort, alloc: Global, tech: &mut Tech, name: &[u8]) -> Result<(), Fail> {
    let [_, vias, _] = tech.counts();
    assert!(rt; vias < LIST_LIMIT && tech.find_via(name).is_none());
    let entered = tech.add_via(via(alloc, name)?)?;
    assert_eq!(rt; entered, ViaId(1));
    Ok(())
}

fn is_first_site(rt: &impl Abort, alloc: Global, tech: &mut Tech, name: &[u8]) -> Result<(), Fail> {
    let [_, _, sites] = tech.counts();
    assert!(rt; sites < LIST_LIMIT && tech.find_site(name).is_none());
    let entered = tech.add_site(site(alloc, name)?)?;
    assert_eq!(rt; entered, SiteId(1));
    Ok(())
}

fn finds(rt: &impl Abort, tech: &Tech) {
    assert_eq!(rt; tech.find_layer(b"via1"), Some(LayerId(2)));
    assert_eq!(rt; tech.find_via(b"via1"), None);
    assert_eq!(rt; tech.find_site(b"met1"), Some(SiteId(1)));
}

fn shows(rt: &impl Abort, tech: &Tech) {
    assert!(rt;
        tech.layer(LayerId(2))
            .is_some_and(|layer| layer.name.bytes() == b"via1".as_slice())
    );
    assert!(rt; tech.via(ViaId(2)).is_none());
    assert!(rt; tech.site(SiteId(0)).is_none());
}

fn cut(rt: &impl Abort, tech: &mut Tech) {
    assert_eq!(rt; tech.counts(), [2, 1, 1]);
    if let [2, 1, 1] = tech.counts() {
        tech.cut(1, 1, 0);
    }
    assert_eq!(rt; tech.counts(), [1, 1, 0]);
    assert_eq!(rt; tech.find_layer(b"via1"), None);
}

#[test]
fn symmetries_by_their_words(rt: HostRuntime) {
    let rows = [("X", 1), ("Y", 2), ("R90", 4)];
    for (word, bits) in rows.iter() {
        let symmetry = Symmetry::from_name(*word);
        assert!(rt; matches!(symmetry, Some(found) if found.bits() == *bits));
    }
    assert!(rt; Symmetry::from_name("R180").is_none());
    assert_eq!(rt; Symmetry::X.union(Symmetry::R90).bits(), 5);
}

fn layer(alloc: Global, name: &[u8]) -> Result<Layer, Fail>
    ensures { IfOk result (λ layer. layer.name ≡ name.now) }
{
    Ok(Layer {
        name: Name::new(alloc, name)?,
        sort: LayerType::Routing,
        direction: LayerDirection::Horizontal,
        pitch_x: 480,
        pitch_y: 480,
        width: 240,
        spacing: 0,
    })
}

fn via(alloc: Global, name: &[u8]) -> Result<TechVia, Fail>
    ensures { IfOk result (λ via. via.name ≡ name.now) }
{
    Ok(TechVia {
        name: Name::new(alloc, name)?,
        default: true,
        shapes: List::new(alloc),
    })
}

fn site(alloc: Global, name: &[u8]) -> Result<Site, Fail>
    ensures { IfOk result (λ site. site.name ≡ name.now) }
{
    Ok(Site {
        name: Name::new(alloc, name)?,
        class: SiteClass::Core,
        symmetry: Symmetry::Y,
        width: 460,
        height: 2720,
    })
}
