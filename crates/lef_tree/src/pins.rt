ghost use Rattle.std.specs.Prelude.{◌≡◌, ◌++◌, ◌∷◌, [], OnErr, OnOk, false};
ghost use Rattle.lef_tree.specs.Pins.{has_key, names_of};

use crate::tree::LefPin;
use indexmap::IndexSet;
use odb_base::List;
use std::alloc::{AllocError, Global};
use std::marker::Model;

/// The pins of a macro in the order of the text, and by name. Contracts see the list of them. No two have one
/// name.
#[derive(Drop)]
pub struct LefPins {
    pins: List<LefPin>,
    // The bytes of their names.
    names: IndexSet<Vec<u8>>,
}

impl Model for LefPins {
    ghost use Rattle.std.specs.Prelude.{List as ListOf};
    ghost use Rattle.lef_tree.specs.declared.tree.LefPin.{LefPin};

    ghost Value = { ListOf LefPin };

    ghost use Rattle.lef_tree.specs.Pins.{IsIndexed};

    ghost view = { λ p. p.pins };

    ghost invariant = { λ p. IsIndexed p.names.keys p.pins };
}

impl LefPins {
    ghost use Rattle.lef_tree.specs.Pins.{has_pin};

    /// No pins. It takes no memory.
    pub fn new(alloc: Global) -> LefPins
        ensures { result ≡ [] }
    {
        LefPins {
            pins: List::new(alloc),
            names: IndexSet::new(alloc),
        }
    }

    /// The pins.
    pub fn items(&self) -> &[LefPin]
        ensures { result.now ≡ self.now }
    {
        self.pins.items()
    }

    /// The list of the pins. It takes no memory.
    pub fn into_list(self) -> List<LefPin>
        ensures { result ≡ self }
    {
        let LefPins { pins, names: _ } = self;
        pins
    }

    /// Whether a pin has this name. On average it takes a time that doesn't grow with the number of pins.
    pub fn has(&self, name: &[u8]) -> bool
        ensures { result ≡ has_pin name.now self.now }
    {
        self.names.contains(name)
    }

    /// Puts a pin last, whose name no pin may have. A refusal leaves the pins as they were.
    pub fn push(&mut self, pin: LefPin) -> Result<(), AllocError>
        requires { has_pin pin.name self.old ≡ false }
        ensures ok { OnOk result (self.new ≡ self.old ++ pin ∷ []) }
        ensures err { OnErr result (self.new ≡ self.old) }
    {
        if let Err(fault) = enter(&mut self.names, pin.name.bytes()) {
            drop(pin);
            return Err(fault);
        }
        match self.pins.push(pin) {
            Ok(()) => Ok(()),
            Err(fault) => {
                self.names.truncate(self.pins.items().len());
                Err(fault)
            }
        }
    }
}

// Puts a copy of a name last that isn't there.
fn enter(names: &mut IndexSet<Vec<u8>>, name: &[u8]) -> Result<(), AllocError>
    requires { has_key name.now names.old.keys ≡ false }
    ensures ok { OnOk result (names_of names.new.keys ≡ names_of names.old.keys ++ name.now ∷ []) }
    ensures err { OnErr result (names.new.keys ≡ names.old.keys) }
{
    let copy = name.to_vec(*names.allocator())?;
    names.insert(copy)?;
    Ok(())
}
