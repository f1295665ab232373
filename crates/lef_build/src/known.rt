use crate::names::Names;
use edit_words::TechPart;
use std::alloc::{AllocError, Global};

/// What parts bring that later items ask for: the units that stand, and the names of each sort.
#[derive(Drop)]
pub struct Known<'a> {
    pub units: u32,
    pub layers: Names<'a>,
    pub vias: Names<'a>,
    pub sites: Names<'a>,
    pub masters: Names<'a>,
}

impl<'a> Known<'a> {
    ghost use Rattle.std.specs.Prelude.{◌≡◌, [], OnErr, OnOk};
    ghost use Rattle.lef_build.specs.Known.{IsNewName, known_with};

    /// No names, and these units. It takes no memory.
    pub fn new(alloc: Global, units: u32) -> Known<'a>
        ensures { result ≡ record { units = units; layers = []; vias = []; sites = []; masters = [] } }
    {
        Known {
            units,
            layers: Names::new(alloc),
            vias: Names::new(alloc),
            sites: Names::new(alloc),
            masters: Names::new(alloc),
        }
    }

    /// What a part of this name brings, which no other of its sort may have; units have no name. A refusal leaves all
    /// as it was.
    pub fn enter(&mut self, name: &'a [u8], part: &TechPart) -> Result<(), AllocError>
        requires { IsNewName self.old part.now name.now }
        ensures ok { OnOk result (self.new ≡ known_with part.now name.now self.old) }
        ensures err { OnErr result (self.new ≡ self.old) }
    {
        match part {
            TechPart::Units(n) => {
                self.units = *n;
                Ok(())
            }
            TechPart::Layer(_) => self.layers.enter(name),
            TechPart::Via(_) => self.vias.enter(name),
            TechPart::Site(_) => self.sites.enter(name),
            TechPart::Master(_) => self.masters.enter(name),
        }
    }
}
