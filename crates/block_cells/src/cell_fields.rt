// The fields of objects with names that are set beside their names: those of their records, and the heads of their lists.

use crate::cells::{BTermCell, GroupCell, InstCell, NetCell, RegionCell, RowCell};
use block_records::Terminals;
use link_list::Head;
use named_pool::Field;
use odb_base::{Direction, Placement, Usage};
use std::mem;

/// The placement of an instance.
pub(crate) struct InstPlace {}

impl Field<InstCell> for InstPlace {
    ghost use Rattle.std.specs.Prelude.{refl};

    type Value = Placement;

    ghost value_of = { λ x. x.fields.place };

    ghost with_value = { λ place x. record x { fields = record x.fields { place = place } } };

    fn set(cell: &mut InstCell, place: Placement) -> Placement {
        mem::replace(&mut cell.fields.place, place)
    }

    ghost named = { λ x place. refl };

    ghost last = { λ x first second. refl };
}

/// The number of the master of an instance.
pub(crate) struct InstMaster {}

impl Field<InstCell> for InstMaster {
    ghost use Rattle.std.specs.Prelude.{refl};

    type Value = u32;

    ghost value_of = { λ x. x.fields.master };

    ghost with_value = { λ master x. record x { fields = record x.fields { master = master } } };

    fn set(cell: &mut InstCell, master: u32) -> u32 {
        mem::replace(&mut cell.fields.master, master)
    }

    ghost named = { λ x master. refl };

    ghost last = { λ x first second. refl };
}

/// The terminals of an instance.
pub(crate) struct InstTerminals {}

impl Field<InstCell> for InstTerminals {
    ghost use Rattle.std.specs.Prelude.{refl};

    type Value = Terminals;

    ghost value_of = { λ x. x.fields.terminals };

    ghost with_value = { λ terminals x. record x { fields = record x.fields { terminals = terminals } } };

    fn set(cell: &mut InstCell, terminals: Terminals) -> Terminals {
        mem::replace(&mut cell.fields.terminals, terminals)
    }

    ghost named = { λ x terminals. refl };

    ghost last = { λ x first second. refl };
}

/// The use of a net.
pub(crate) struct NetUsage {}

impl Field<NetCell> for NetUsage {
    ghost use Rattle.std.specs.Prelude.{refl};

    type Value = Usage;

    ghost value_of = { λ x. x.fields.usage };

    ghost with_value = { λ usage x. record x { fields = record x.fields { usage = usage } } };

    fn set(cell: &mut NetCell, usage: Usage) -> Usage {
        mem::replace(&mut cell.fields.usage, usage)
    }

    ghost named = { λ x usage. refl };

    ghost last = { λ x first second. refl };
}

/// Whether a net is special.
pub(crate) struct NetSpecial {}

impl Field<NetCell> for NetSpecial {
    ghost use Rattle.std.specs.Prelude.{refl};

    type Value = bool;

    ghost value_of = { λ x. x.fields.special };

    ghost with_value = { λ special x. record x { fields = record x.fields { special = special } } };

    fn set(cell: &mut NetCell, special: bool) -> bool {
        mem::replace(&mut cell.fields.special, special)
    }

    ghost named = { λ x special. refl };

    ghost last = { λ x first second. refl };
}

/// The net that a block terminal is joined to.
pub(crate) struct BTermNet {}

impl Field<BTermCell> for BTermNet {
    ghost use Rattle.std.specs.Prelude.{refl};

    type Value = u32;

    ghost value_of = { λ x. x.fields.net };

    ghost with_value = { λ net x. record x { fields = record x.fields { net = net } } };

    fn set(cell: &mut BTermCell, net: u32) -> u32 {
        mem::replace(&mut cell.fields.net, net)
    }

    ghost named = { λ x net. refl };

    ghost last = { λ x first second. refl };
}

/// The use of a block terminal.
pub(crate) struct BTermUsage {}

impl Field<BTermCell> for BTermUsage {
    ghost use Rattle.std.specs.Prelude.{refl};

    type Value = Usage;

    ghost value_of = { λ x. x.fields.usage };

    ghost with_value = { λ usage x. record x { fields = record x.fields { usage = usage } } };

    fn set(cell: &mut BTermCell, usage: Usage) -> Usage {
        mem::replace(&mut cell.fields.usage, usage)
    }

    ghost named = { λ x usage. refl };

    ghost last = { λ x first second. refl };
}

/// The direction of a block terminal.
pub(crate) struct BTermDirection {}

impl Field<BTermCell> for BTermDirection {
    ghost use Rattle.std.specs.Prelude.{refl};

    type Value = Direction;

    ghost value_of = { λ x. x.fields.direction };

    ghost with_value = { λ direction x. record x { fields = record x.fields { direction = direction } } };

    fn set(cell: &mut BTermCell, direction: Direction) -> Direction {
        mem::replace(&mut cell.fields.direction, direction)
    }

    ghost named = { λ x direction. refl };

    ghost last = { λ x first second. refl };
}

/// The first of the properties of an instance.
pub(crate) struct InstProps {}

impl Field<InstCell> for InstProps {
    ghost use Rattle.std.specs.Prelude.{refl};

    type Value = Head;

    ghost value_of = { λ x. x.props };

    ghost with_value = { λ props x. record x { props = props } };

    fn set(cell: &mut InstCell, props: Head) -> Head {
        mem::replace(&mut cell.props, props)
    }

    ghost named = { λ x props. refl };

    ghost last = { λ x first second. refl };
}

/// The first of the terminals of a net.
pub(crate) struct NetTerms {}

impl Field<NetCell> for NetTerms {
    ghost use Rattle.std.specs.Prelude.{refl};

    type Value = Head;

    ghost value_of = { λ x. x.terms };

    ghost with_value = { λ terms x. record x { terms = terms } };

    fn set(cell: &mut NetCell, terms: Head) -> Head {
        mem::replace(&mut cell.terms, terms)
    }

    ghost named = { λ x terms. refl };

    ghost last = { λ x first second. refl };
}

/// The first of the wires of a net.
pub(crate) struct NetWires {}

impl Field<NetCell> for NetWires {
    ghost use Rattle.std.specs.Prelude.{refl};

    type Value = Head;

    ghost value_of = { λ x. x.wires };

    ghost with_value = { λ wires x. record x { wires = wires } };

    fn set(cell: &mut NetCell, wires: Head) -> Head {
        mem::replace(&mut cell.wires, wires)
    }

    ghost named = { λ x wires. refl };

    ghost last = { λ x first second. refl };
}

/// The first of the properties of a net.
pub(crate) struct NetProps {}

impl Field<NetCell> for NetProps {
    ghost use Rattle.std.specs.Prelude.{refl};

    type Value = Head;

    ghost value_of = { λ x. x.props };

    ghost with_value = { λ props x. record x { props = props } };

    fn set(cell: &mut NetCell, props: Head) -> Head {
        mem::replace(&mut cell.props, props)
    }

    ghost named = { λ x props. refl };

    ghost last = { λ x first second. refl };
}

/// The first of the pins of a block terminal.
pub(crate) struct BTermPins {}

impl Field<BTermCell> for BTermPins {
    ghost use Rattle.std.specs.Prelude.{refl};

    type Value = Head;

    ghost value_of = { λ x. x.pins };

    ghost with_value = { λ pins x. record x { pins = pins } };

    fn set(cell: &mut BTermCell, pins: Head) -> Head {
        mem::replace(&mut cell.pins, pins)
    }

    ghost named = { λ x pins. refl };

    ghost last = { λ x first second. refl };
}

/// The first of the properties of a row.
pub(crate) struct RowProps {}

impl Field<RowCell> for RowProps {
    ghost use Rattle.std.specs.Prelude.{refl};

    type Value = Head;

    ghost value_of = { λ x. x.props };

    ghost with_value = { λ props x. record x { props = props } };

    fn set(cell: &mut RowCell, props: Head) -> Head {
        mem::replace(&mut cell.props, props)
    }

    ghost named = { λ x props. refl };

    ghost last = { λ x first second. refl };
}

/// The first of the groups of a region.
pub(crate) struct RegionGroups {}

impl Field<RegionCell> for RegionGroups {
    ghost use Rattle.std.specs.Prelude.{refl};

    type Value = Head;

    ghost value_of = { λ x. x.groups };

    ghost with_value = { λ groups x. record x { groups = groups } };

    fn set(cell: &mut RegionCell, groups: Head) -> Head {
        mem::replace(&mut cell.groups, groups)
    }

    ghost named = { λ x groups. refl };

    ghost last = { λ x first second. refl };
}

/// The first of the properties of a region.
pub(crate) struct RegionProps {}

impl Field<RegionCell> for RegionProps {
    ghost use Rattle.std.specs.Prelude.{refl};

    type Value = Head;

    ghost value_of = { λ x. x.props };

    ghost with_value = { λ props x. record x { props = props } };

    fn set(cell: &mut RegionCell, props: Head) -> Head {
        mem::replace(&mut cell.props, props)
    }

    ghost named = { λ x props. refl };

    ghost last = { λ x first second. refl };
}

/// The first of the members of a group.
pub(crate) struct GroupMembers {}

impl Field<GroupCell> for GroupMembers {
    ghost use Rattle.std.specs.Prelude.{refl};

    type Value = Head;

    ghost value_of = { λ x. x.members };

    ghost with_value = { λ members x. record x { members = members } };

    fn set(cell: &mut GroupCell, members: Head) -> Head {
        mem::replace(&mut cell.members, members)
    }

    ghost named = { λ x members. refl };

    ghost last = { λ x first second. refl };
}

/// The first of the properties of a group.
pub(crate) struct GroupProps {}

impl Field<GroupCell> for GroupProps {
    ghost use Rattle.std.specs.Prelude.{refl};

    type Value = Head;

    ghost value_of = { λ x. x.props };

    ghost with_value = { λ props x. record x { props = props } };

    fn set(cell: &mut GroupCell, props: Head) -> Head {
        mem::replace(&mut cell.props, props)
    }

    ghost named = { λ x props. refl };

    ghost last = { λ x first second. refl };
}
