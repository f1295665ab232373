ghost use Rattle.std.specs.Prelude.{◌≡◌, []};

use crate::by_name::ByName;
use crate::connections::Connections;
use odb_base::{List, Text, Usage, WireStatus};
use std::alloc::Global;
use wires::NamedPaths;

/// A wire of a net: its paths behind `ROUTED`, `FIXED` or `COVER`.
#[derive(Drop)]
pub struct DefWire {
    pub status: WireStatus,
    pub paths: NamedPaths,
}

/// A net (NETS and SPECIALNETS).
#[derive(Drop)]
pub struct DefNet {
    /// Whether it stands in SPECIALNETS.
    pub special: bool,
    pub connections: Connections,
    pub usage: Usage,
    /// Its other options in NETS, word for word.
    pub kept: Text,
    /// Its other options in SPECIALNETS, word for word.
    pub special_kept: Text,
    /// Its wires in NETS, in the order of the text.
    pub wires: List<DefWire>,
    /// Its wires in SPECIALNETS, in the order of the text.
    pub special_wires: List<DefWire>,
    /// The values of its properties in NETS.
    pub props: ByName<Text>,
    /// The values of its properties in SPECIALNETS.
    pub special_props: ByName<Text>,
}

impl DefNet {
    ghost use Rattle.def_tree.specs.Nets.{empty_net};

    /// A net of which nothing is said. It takes no memory.
    pub fn new(alloc: Global) -> DefNet
        ensures { result ≡ empty_net }
    {
        DefNet {
            special: false,
            connections: Connections::new(alloc),
            usage: Usage::None,
            kept: no_text(alloc),
            special_kept: no_text(alloc),
            wires: List::new(alloc),
            special_wires: List::new(alloc),
            props: ByName::new(alloc),
            special_props: ByName::new(alloc),
        }
    }
}

fn no_text(alloc: Global) -> Text
    ensures { result ≡ [] }
{
    Text::from_vec(Vec::new(alloc))
}
