ghost use Rattle.std.specs.Prelude.{◌≡◌, map};
ghost use Rattle.lef_build.specs.Answers.{IsMade};
ghost use Rattle.lef_build.specs.Distances.{has_corners};
ghost use Rattle.lef_build.specs.Causes.{are_good_pins, are_good_shapes};
ghost use Rattle.lef_build.specs.Stated.{shape_of, shapes_of, terminal_of};
ghost use Rattle.tech.specs.Technology.{find_layer};

use crate::builder::Builder;
use crate::distances::rect;
use crate::fault::BuildFault;
use lef_tree::{LefPin, LefShape};
use library::MTerm;
use odb_base::{LayerId, List, Name, Shape};

impl<'a> Builder<'a> {
    /// The shapes of the item of this name.
    pub fn shapes(&self, name: &Name, shapes: &[LefShape]) -> Result<List<Shape>, BuildFault>
        ensures { IsMade name.now (are_good_shapes self.now.tech.units shapes.now) (shapes_of self.now.tech shapes.now) result }
    {
        let mut made = self.empty_list();
        let mut last: &[u8] = &[];
        let mut found = self.find_layer(last);
        for shape in shapes {
            let layer = shape.layer.bytes();
            found = self.find_again(last, found, layer);
            last = layer;
            made.push(self.shape(name, found, shape)?)?;
        }
        Ok(made)
    }

    // A shape whose layer was found as this.
    fn shape(&self, name: &Name, found: Option<u32>, shape: &LefShape) -> Result<Shape, BuildFault>
        requires { found ≡ find_layer self.now.tech shape.now.layer }
        ensures { IsMade name.now (has_corners self.now.tech.units shape.now.rect) (shape_of self.now.tech shape.now) result }
    {
        let rect = rect(self.units(), name, &shape.rect)?;
        Ok(Shape {
            layer: LayerId(found.unwrap_or(0)),
            rect,
        })
    }

    /// The terminals of the macro of this name.
    pub fn terminals(&self, name: &Name, pins: &[LefPin]) -> Result<List<MTerm>, BuildFault>
        ensures { IsMade name.now (are_good_pins self.now.tech.units pins.now) (map (terminal_of self.now.tech) pins.now) result }
    {
        let mut made = self.empty_list();
        for pin in pins {
            made.push(self.terminal(name, pin)?)?;
        }
        Ok(made)
    }

    #[tactic(auto, unfolding(crate::specs::Stated::terminal_of))]
    fn terminal(&self, name: &Name, pin: &LefPin) -> Result<MTerm, BuildFault>
        ensures { IsMade name.now (are_good_shapes self.now.tech.units pin.now.shapes) (terminal_of self.now.tech pin.now) result }
    {
        let shapes = self.shapes(name, pin.shapes.items())?;
        Ok(MTerm {
            name: pin.name.try_clone()?,
            direction: pin.direction,
            usage: pin.usage,
            shapes,
        })
    }
}
