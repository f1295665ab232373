ghost use Rattle.std.specs.Prelude.{◌≡◌};
ghost use Rattle.lef_build.specs.Answers.{IsMade, IsPart};
ghost use Rattle.lef_build.specs.Causes.{are_good_shapes, has_good_sizes, is_good_layer, is_good_macro, is_good_site, layer_fault, macro_fault, site_fault, via_fault};
ghost use Rattle.lef_build.specs.Stated.{layer_of, master_of, site_number, site_of, sizes_of, via_of};

use crate::asked::{has_shapes, layer_states, macro_states, site_states};
use crate::builder::Builder;
use crate::distances::{distance, size};
use crate::fault::BuildFault;
use bitflags::Flags;
use lef_tree::{LefLayer, LefMacro, LefSite, LefVia};
use library::Master;
use odb_base::Name;
use tech::{Layer, Site, Symmetry, TechVia};

impl<'a> Builder<'a> {
    /// The layer, or the first cause why there is none.
    #[tactic(auto, unfolding(crate::specs::Causes::layer_fault))]
    pub fn layer(&self, stated: &LefLayer) -> Result<Layer, BuildFault>
        ensures { IsPart (layer_fault self.now.tech.units stated.now) (layer_of self.now.tech.units stated.now) result }
    {
        self.ask_units(layer_states(stated))?;
        made_layer(self.units(), stated)
    }

    /// The via, or the first cause why there is none.
    #[tactic(auto, unfolding(crate::specs::Causes::via_fault))]
    pub fn via(&self, stated: &LefVia) -> Result<TechVia, BuildFault>
        ensures { IsPart (via_fault self.now.tech stated.now) (via_of self.now.tech stated.now) result }
    {
        let shapes = stated.shapes.items();
        self.ask_units(has_shapes(shapes))?;
        self.ask_layers(shapes)?;
        self.made_via(stated)
    }

    /// The site, or the first cause why there is none.
    #[tactic(auto, unfolding(crate::specs::Causes::site_fault))]
    pub fn site(&self, stated: &LefSite) -> Result<Site, BuildFault>
        ensures { IsPart (site_fault self.now.tech.units stated.now) (site_of self.now.tech.units stated.now) result }
    {
        self.ask_units(site_states(stated))?;
        made_site(self.units(), stated)
    }

    /// The master of a macro, or the first cause why there is none.
    #[tactic(auto, unfolding(crate::specs::Causes::macro_fault))]
    pub fn master(&self, stated: &LefMacro) -> Result<Master, BuildFault>
        ensures { IsPart (macro_fault self.now.tech stated.now) (master_of self.now.tech stated.now) result }
    {
        self.ask_units(macro_states(stated))?;
        self.ask_pin_layers(stated.terminals.items())?;
        self.ask_layers(stated.obstructions.items())?;
        self.ask_site(&stated.site)?;
        self.made_master(stated)
    }

    #[tactic(auto, unfolding(crate::specs::Stated::via_of))]
    fn made_via(&self, stated: &LefVia) -> Result<TechVia, BuildFault>
        ensures { IsMade stated.now.name (are_good_shapes self.now.tech.units stated.now.shapes) (via_of self.now.tech stated.now) result }
    {
        let shapes = self.shapes(&stated.name, stated.shapes.items())?;
        Ok(TechVia {
            name: stated.name.try_clone()?,
            default: stated.default,
            shapes,
        })
    }

    #[tactic(auto, unfolding(crate::specs::Stated::master_of))]
    fn made_master(&self, stated: &LefMacro) -> Result<Master, BuildFault>
        ensures { IsMade stated.now.name (is_good_macro self.now.tech.units stated.now) (master_of self.now.tech stated.now) result }
    {
        let [origin_x, origin_y, width, height] = made_sizes(self.units(), stated)?;
        let named = &stated.name;
        let name = named.try_clone()?;
        let class = stated.class.try_clone()?;
        let foreign = stated.foreign.try_clone()?;
        let obstructions = self.shapes(named, stated.obstructions.items())?;
        let terminals = self.terminals(named, stated.terminals.items())?;
        Ok(Master {
            name,
            class,
            origin_x,
            origin_y,
            width,
            height,
            symmetry: stated.symmetry,
            site: self.site_number(&stated.site),
            foreign,
            terminals,
            obstructions,
        })
    }

    fn site_number(&self, site: &Option<Name>) -> u32
        ensures { result ≡ site_number self.now.tech site.now }
    {
        match site {
            Some(name) => self.find_site(name.bytes()).unwrap_or(0),
            None => 0,
        }
    }
}

#[tactic(auto, unfolding(crate::specs::Stated::layer_of))]
fn made_layer(units: u32, stated: &LefLayer) -> Result<Layer, BuildFault>
    ensures { IsMade stated.now.name (is_good_layer units stated.now) (layer_of units stated.now) result }
{
    let name = &stated.name;
    let pitch_x = distance(units, name, &stated.pitch_x)?;
    let pitch_y = distance(units, name, &stated.pitch_y)?;
    let width = distance(units, name, &stated.width)?;
    let spacing = distance(units, name, &stated.spacing)?;
    Ok(Layer {
        name: name.try_clone()?,
        sort: stated.sort,
        direction: stated.direction,
        pitch_x,
        pitch_y,
        width,
        spacing,
    })
}

#[tactic(auto, unfolding(crate::specs::Stated::site_of))]
fn made_site(units: u32, stated: &LefSite) -> Result<Site, BuildFault>
    ensures { IsMade stated.now.name (is_good_site units stated.now) (site_of units stated.now) result }
{
    let name = &stated.name;
    let width = size(units, name, &stated.width)?;
    let height = size(units, name, &stated.height)?;
    Ok(Site {
        name: name.try_clone()?,
        class: stated.class,
        symmetry: Symmetry::from_bits_retain(stated.symmetry),
        width,
        height,
    })
}

// The origin and the size of a macro: x and y, width and height.
fn made_sizes(units: u32, stated: &LefMacro) -> Result<[i32; 4], BuildFault>
    ensures { IsMade stated.now.name (has_good_sizes units stated.now) (sizes_of units stated.now) result }
{
    let name = &stated.name;
    Ok([
        distance(units, name, &stated.origin_x)?,
        distance(units, name, &stated.origin_y)?,
        size(units, name, &stated.width)?,
        size(units, name, &stated.height)?,
    ])
}
