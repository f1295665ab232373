ghost use Rattle.std.specs.Prelude.{◌≡◌, OnErr, OnOk};
ghost use Rattle.def_tree.specs.Definitions.{definitions_of, no_definitions, with_definition};

use crate::by_name::ByName;
use odb_base::{Owner, PropType, Text};
use std::alloc::{AllocError, Global};

/// What a property is.
#[derive(Debug, Drop)]
pub struct DefDefinition {
    pub sort: PropType,
    /// The words behind the type, with one space between them.
    pub rest: Text,
}

/// The definitions of properties (PROPERTYDEFINITIONS), by name for each sort of objects that has them.
#[derive(Drop)]
pub struct DefDefinitions {
    pub design: ByName<DefDefinition>,
    pub component: ByName<DefDefinition>,
    pub net: ByName<DefDefinition>,
    pub special_net: ByName<DefDefinition>,
    pub row: ByName<DefDefinition>,
    pub region: ByName<DefDefinition>,
    pub group: ByName<DefDefinition>,
    pub component_pin: ByName<DefDefinition>,
}

impl DefDefinitions {
    /// No definitions. It takes no memory.
    pub fn new(alloc: Global) -> DefDefinitions
        ensures { result ≡ no_definitions }
    {
        DefDefinitions {
            design: ByName::new(alloc),
            component: ByName::new(alloc),
            net: ByName::new(alloc),
            special_net: ByName::new(alloc),
            row: ByName::new(alloc),
            region: ByName::new(alloc),
            group: ByName::new(alloc),
            component_pin: ByName::new(alloc),
        }
    }

    /// Those of an owner.
    pub fn of(&self, owner: Owner) -> &ByName<DefDefinition>
        ensures { result.now ≡ definitions_of owner self.now }
    {
        match owner {
            Owner::Design => &self.design,
            Owner::Component => &self.component,
            Owner::Net => &self.net,
            Owner::SpecialNet => &self.special_net,
            Owner::Row => &self.row,
            Owner::Region => &self.region,
            Owner::Group => &self.group,
            Owner::ComponentPin => &self.component_pin,
        }
    }

    /// Puts one under a copy of its name, in the place of the one that had it. A refusal leaves all as it was.
    pub fn put(
        &mut self,
        alloc: Global,
        owner: Owner,
        name: &[u8],
        definition: DefDefinition,
    ) -> Result<(), AllocError>
        ensures ok { OnOk result (self.new ≡ with_definition owner name.now definition self.old) }
        ensures err { OnErr result (self.new ≡ self.old) }
    {
        match owner {
            Owner::Design => self.design.put(alloc, name, definition),
            Owner::Component => self.component.put(alloc, name, definition),
            Owner::Net => self.net.put(alloc, name, definition),
            Owner::SpecialNet => self.special_net.put(alloc, name, definition),
            Owner::Row => self.row.put(alloc, name, definition),
            Owner::Region => self.region.put(alloc, name, definition),
            Owner::Group => self.group.put(alloc, name, definition),
            Owner::ComponentPin => self.component_pin.put(alloc, name, definition),
        }
    }
}
