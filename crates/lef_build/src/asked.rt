ghost use Rattle.std.specs.Prelude.{◌≡◌, Some};
ghost use Rattle.std.specs.List.{list_any};
ghost use Rattle.lef_build.specs.Answers.{IsAsked};
ghost use Rattle.lef_build.specs.Causes.{has_shapes as some_shapes, layer_states as states_of_layer, macro_states as states_of_macro, no_units, site_states as states_of_site, unknown_layer, unknown_layers, unknown_pin_layers, unknown_site};
ghost use Rattle.tech.specs.Technology.{find_layer};

use crate::builder::Builder;
use crate::fault::BuildFault;
use lef_tree::{LefLayer, LefMacro, LefPin, LefShape, LefSite};
use odb_base::Name;

impl<'a> Builder<'a> {
    /// Units stand, or no distance is stated.
    pub fn ask_units(&self, states: bool) -> Result<(), BuildFault>
        ensures { IsAsked (no_units states self.now.tech.units) result }
    {
        if states && self.units() == 0 {
            return Err(BuildFault::NoUnits);
        }
        Ok(())
    }

    /// The layer of each shape is there.
    pub fn ask_layers(&self, shapes: &[LefShape]) -> Result<(), BuildFault>
        ensures { IsAsked (unknown_layers self.now.tech shapes.now) result }
    {
        let mut last: &[u8] = &[];
        let mut found = self.find_layer(last);
        for shape in shapes {
            let name = shape.layer.bytes();
            found = self.find_again(last, found, name);
            last = name;
            self.ask_found(found, shape)?;
        }
        Ok(())
    }

    // The layer of a shape, which was found as this, is there.
    fn ask_found(&self, found: Option<u32>, shape: &LefShape) -> Result<(), BuildFault>
        requires { found ≡ find_layer self.now.tech shape.now.layer }
        ensures { IsAsked (unknown_layer self.now.tech shape.now) result }
    {
        if found.is_some() {
            return Ok(());
        }
        Err(BuildFault::UnknownLayer {
            name: shape.layer.try_clone()?,
        })
    }

    /// The layer of each shape of the pins is there.
    pub fn ask_pin_layers(&self, pins: &[LefPin]) -> Result<(), BuildFault>
        ensures { IsAsked (unknown_pin_layers self.now.tech pins.now) result }
    {
        for pin in pins {
            self.ask_layers(pin.shapes.items())?;
        }
        Ok(())
    }

    /// The site that is named is there.
    pub fn ask_site(&self, site: &Option<Name>) -> Result<(), BuildFault>
        ensures { IsAsked (unknown_site self.now.tech site.now) result }
    {
        match site {
            Some(name) => self.ask_named_site(name),
            None => Ok(()),
        }
    }

    fn ask_named_site(&self, name: &Name) -> Result<(), BuildFault>
        ensures { IsAsked (unknown_site self.now.tech (Some name.now)) result }
    {
        if self.find_site(name.bytes()).is_some() {
            return Ok(());
        }
        Err(BuildFault::UnknownSite {
            name: name.try_clone()?,
        })
    }
}

/// Whether a layer states a distance.
pub fn layer_states(stated: &LefLayer) -> bool
    ensures { result ≡ states_of_layer stated.now }
{
    stated.pitch_x.is_some()
        || stated.pitch_y.is_some()
        || stated.width.is_some()
        || stated.spacing.is_some()
}

/// Whether a site states a distance.
pub fn site_states(stated: &LefSite) -> bool
    ensures { result ≡ states_of_site stated.now }
{
    stated.width.is_some() || stated.height.is_some()
}

/// Whether a macro states a distance.
pub fn macro_states(stated: &LefMacro) -> bool
    ensures { result ≡ states_of_macro stated.now }
{
    stated.origin_x.is_some()
        || stated.origin_y.is_some()
        || stated.width.is_some()
        || stated.height.is_some()
        || pins_have_shapes(stated.terminals.items())
        || has_shapes(stated.obstructions.items())
}

/// Whether there are shapes.
pub fn has_shapes(shapes: &[LefShape]) -> bool
    ensures { result ≡ some_shapes shapes.now }
{
    !shapes.is_empty()
}

fn pins_have_shapes(pins: &[LefPin]) -> bool
    ensures { result ≡ list_any (λ pin. some_shapes pin.shapes) pins.now }
{
    pins.iter().any(|pin| has_shapes(pin.shapes.items()))
}
