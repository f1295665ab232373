ghost use Rattle.std.specs.Prelude.{◌≡◌, IfOk};
ghost use Rattle.def_tree.specs.Empty.{empty_tree};

use crate::by_name::ByName;
use crate::definitions::DefDefinitions;
use crate::floorplan::{DefBlockage, DefRegion, DefRow, DefTrack};
use crate::nets::DefNet;
use crate::pins::DefPin;
use crate::placed::{DefComponent, DefGroup};
use odb_base::{List, Rect, Text};
use std::alloc::{AllocError, Global};

/// What a DEF text holds.
#[derive(Drop)]
pub struct DefTree {
    /// The name of the design, empty where none is stated.
    pub design: Text,
    /// The character that parts the levels of a hierarchical name.
    pub divider: Text,
    /// The two characters around the index of a bus's bit.
    pub bus: Text,
    /// Database units for each micron, 0 where they aren't stated.
    pub units: u32,
    pub definitions: DefDefinitions,
    /// The area of the die, where it is stated.
    pub die: Option<Rect>,
    pub rows: ByName<DefRow>,
    /// Tracks in the order of the text.
    pub tracks: List<DefTrack>,
    /// The options of vias, word for word.
    pub vias: ByName<Text>,
    pub regions: ByName<DefRegion>,
    pub components: ByName<DefComponent>,
    pub pins: ByName<DefPin>,
    /// Blockages in the order of the text.
    pub blockages: List<DefBlockage>,
    pub nets: ByName<DefNet>,
    pub groups: ByName<DefGroup>,
}

impl DefTree {
    /// What a text holds that states nothing: the divider is `/`, the bus characters are `[]`, and all else is empty.
    pub fn new(alloc: Global) -> Result<DefTree, AllocError>
        ensures { IfOk result (λ tree. tree ≡ empty_tree) }
    {
        Ok(DefTree {
            design: Text::new(alloc, b"")?,
            divider: Text::new(alloc, b"/")?,
            bus: Text::new(alloc, b"[]")?,
            units: 0,
            definitions: DefDefinitions::new(alloc),
            die: None,
            rows: ByName::new(alloc),
            tracks: List::new(alloc),
            vias: ByName::new(alloc),
            regions: ByName::new(alloc),
            components: ByName::new(alloc),
            pins: ByName::new(alloc),
            blockages: List::new(alloc),
            nets: ByName::new(alloc),
            groups: ByName::new(alloc),
        })
    }
}
