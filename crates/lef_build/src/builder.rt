ghost use Rattle.std.specs.Prelude.{◌≡◌, [], OnOk, false};
ghost use Rattle.std.specs.Option.{option_map};
ghost use Rattle.tech.specs.Technology.{find_layer, find_site, find_via};
ghost use Rattle.library.specs.Masters.{find_master};
ghost use Rattle.lef_build.specs.Building.{entered, left_out, start};
ghost use Rattle.lef_build.specs.Known.{IsNamed, stands};

use crate::known::Known;
use crate::parts::Parts;
use edit_words::TechPart;
use library::Library;
use odb_base::List;
use std::alloc::{AllocError, Global};
use std::marker::Model;
use tech::Tech;

/// The parts of the items so far. Contracts see them, with the technology and the library that they lead to.
#[derive(Drop)]
pub struct Builder<'a> {
    alloc: Global,
    tech: &'a Tech,
    library: &'a Library,
    known: Known<'a>,
    parts: Vec<TechPart>,
    passed: u64,
}

impl<'a> Model for Builder<'a> {
    ghost use Rattle.lef_build.specs.Building.{Build, build_of};
    ghost use Rattle.lef_build.specs.Known.{IsKnown};

    ghost Value = { Build };

    ghost view = { λ b. build_of b.tech.now b.library.now b.parts.items b.passed };

    ghost invariant = { λ b. IsKnown b.tech.now b.library.now b.parts.items b.known };
}

impl<'a> Builder<'a> {
    /// No parts, and so many passed.
    pub fn new(alloc: Global, tech: &'a Tech, library: &'a Library, passed: u64) -> Builder<'a>
        ensures { result ≡ start tech.now library.now passed }
    {
        Builder {
            alloc,
            tech,
            library,
            known: Known::new(alloc, tech.units()),
            parts: Vec::new(alloc),
            passed,
        }
    }

    /// A list without items, in the memory of the parts. It takes none yet.
    pub fn empty_list<T>(&self) -> List<T>
        ensures { result ≡ [] }
    {
        List::new(self.alloc)
    }

    /// The units that stand, 0 for none.
    pub fn units(&self) -> u32
        ensures { result ≡ self.now.tech.units }
    {
        self.known.units
    }

    /// The identifier of the layer of this name.
    pub fn find_layer(&self, name: &[u8]) -> Option<u32>
        ensures { result ≡ find_layer self.now.tech name.now }
    {
        let [layers, _, _] = self.tech.counts();
        match self.tech.find_layer(name) {
            Some(id) => Some(id.0),
            None => self.known.layers.id_behind(layers, name),
        }
    }

    /// The same, where the layer of another name was found as this. Most shapes are on the layer of the one before.
    pub fn find_again(&self, last: &[u8], found: Option<u32>, name: &[u8]) -> Option<u32>
        requires { found ≡ find_layer self.now.tech last.now }
        ensures { result ≡ find_layer self.now.tech name.now }
    {
        if name == last {
            found
        } else {
            self.find_layer(name)
        }
    }

    /// The identifier of the via of this name.
    pub fn find_via(&self, name: &[u8]) -> Option<u32>
        ensures { result ≡ find_via self.now.tech name.now }
    {
        let [_, vias, _] = self.tech.counts();
        match self.tech.find_via(name) {
            Some(id) => Some(id.0),
            None => self.known.vias.id_behind(vias, name),
        }
    }

    /// The identifier of the site of this name.
    pub fn find_site(&self, name: &[u8]) -> Option<u32>
        ensures { result ≡ find_site self.now.tech name.now }
    {
        let [_, _, sites] = self.tech.counts();
        match self.tech.find_site(name) {
            Some(id) => Some(id.0),
            None => self.known.sites.id_behind(sites, name),
        }
    }

    /// The identifier of the master of this name.
    pub fn find_master(&self, name: &[u8]) -> Option<u32>
        ensures { result ≡ find_master self.now.library name.now }
    {
        match self.library.find_master(name) {
            Some(id) => Some(id.0),
            None => self.known.masters.id_behind(self.library.count(), name),
        }
    }

    /// One more is left out.
    pub fn leave_out(&mut self)
        ensures { self.new ≡ left_out self.old }
    {
        self.passed = self.passed.saturating_add(1);
    }

    /// One more part, of this name, which no other of its sort may have; units have no name.
    pub fn enter(&mut self, name: &'a [u8], part: TechPart) -> Result<(), AllocError>
        requires named { IsNamed part name.now }
        requires new { stands self.old part name.now ≡ false }
        ensures { OnOk result (self.new ≡ entered part self.old) }
    {
        // With room for the part, no name is entered in vain.
        if let Err(fault) = self.parts.reserve(1) {
            drop(part);
            return Err(fault);
        }
        if let Err(fault) = self.known.enter(name, &part) {
            drop(part);
            return Err(fault);
        }
        self.parts.push_reserved(part);
        Ok(())
    }

    /// The parts.
    pub fn into_parts(self) -> Parts
        ensures { result ≡ record { parts = self.entry.parts; passed = self.entry.passed } }
    {
        let Builder {
            alloc: _,
            tech: _,
            library: _,
            known,
            parts,
            passed,
        } = self;
        drop(known);
        Parts {
            parts: List::from_vec(parts),
            passed,
        }
    }
}
