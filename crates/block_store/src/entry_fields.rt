// The fields of entries that are set beside their names: those of records, and the lists.

use crate::entry::{BTermEntry, GroupEntry, InstEntry, NetEntry, RegionEntry, RowEntry};
use crate::ids::Ids;
use block_records::Terminals;
use named_pool::Field;
use odb_base::{Direction, Placement, Usage};
use std::mem;

/// The placement of an instance.
pub(crate) struct InstPlace {}

impl Field<InstEntry> for InstPlace {
    ghost use Rattle.std.specs.Prelude.{refl};

    type Value = Placement;

    ghost value_of = { λ e. e.fields.place };

    ghost with_value = { λ place e. record e { fields = record e.fields { place = place } } };

    fn set(entry: &mut InstEntry, place: Placement) -> Placement {
        mem::replace(&mut entry.fields.place, place)
    }

    ghost named = { λ e place. refl };

    ghost last = { λ e first second. refl };
}

/// The number of the master of an instance.
pub(crate) struct InstMaster {}

impl Field<InstEntry> for InstMaster {
    ghost use Rattle.std.specs.Prelude.{refl};

    type Value = u32;

    ghost value_of = { λ e. e.fields.master };

    ghost with_value = { λ master e. record e { fields = record e.fields { master = master } } };

    fn set(entry: &mut InstEntry, master: u32) -> u32 {
        mem::replace(&mut entry.fields.master, master)
    }

    ghost named = { λ e master. refl };

    ghost last = { λ e first second. refl };
}

/// The terminals of an instance.
pub(crate) struct InstTerminals {}

impl Field<InstEntry> for InstTerminals {
    ghost use Rattle.std.specs.Prelude.{refl};

    type Value = Terminals;

    ghost value_of = { λ e. e.fields.terminals };

    ghost with_value = { λ terminals e. record e { fields = record e.fields { terminals = terminals } } };

    fn set(entry: &mut InstEntry, terminals: Terminals) -> Terminals {
        mem::replace(&mut entry.fields.terminals, terminals)
    }

    ghost named = { λ e terminals. refl };

    ghost last = { λ e first second. refl };
}

/// The use of a net.
pub(crate) struct NetUsage {}

impl Field<NetEntry> for NetUsage {
    ghost use Rattle.std.specs.Prelude.{refl};

    type Value = Usage;

    ghost value_of = { λ e. e.fields.usage };

    ghost with_value = { λ usage e. record e { fields = record e.fields { usage = usage } } };

    fn set(entry: &mut NetEntry, usage: Usage) -> Usage {
        mem::replace(&mut entry.fields.usage, usage)
    }

    ghost named = { λ e usage. refl };

    ghost last = { λ e first second. refl };
}

/// Whether a net is special.
pub(crate) struct NetSpecial {}

impl Field<NetEntry> for NetSpecial {
    ghost use Rattle.std.specs.Prelude.{refl};

    type Value = bool;

    ghost value_of = { λ e. e.fields.special };

    ghost with_value = { λ special e. record e { fields = record e.fields { special = special } } };

    fn set(entry: &mut NetEntry, special: bool) -> bool {
        mem::replace(&mut entry.fields.special, special)
    }

    ghost named = { λ e special. refl };

    ghost last = { λ e first second. refl };
}

/// The net that a block terminal is joined to.
pub(crate) struct BTermNet {}

impl Field<BTermEntry> for BTermNet {
    ghost use Rattle.std.specs.Prelude.{refl};

    type Value = u32;

    ghost value_of = { λ e. e.fields.net };

    ghost with_value = { λ net e. record e { fields = record e.fields { net = net } } };

    fn set(entry: &mut BTermEntry, net: u32) -> u32 {
        mem::replace(&mut entry.fields.net, net)
    }

    ghost named = { λ e net. refl };

    ghost last = { λ e first second. refl };
}

/// The use of a block terminal.
pub(crate) struct BTermUsage {}

impl Field<BTermEntry> for BTermUsage {
    ghost use Rattle.std.specs.Prelude.{refl};

    type Value = Usage;

    ghost value_of = { λ e. e.fields.usage };

    ghost with_value = { λ usage e. record e { fields = record e.fields { usage = usage } } };

    fn set(entry: &mut BTermEntry, usage: Usage) -> Usage {
        mem::replace(&mut entry.fields.usage, usage)
    }

    ghost named = { λ e usage. refl };

    ghost last = { λ e first second. refl };
}

/// The direction of a block terminal.
pub(crate) struct BTermDirection {}

impl Field<BTermEntry> for BTermDirection {
    ghost use Rattle.std.specs.Prelude.{refl};

    type Value = Direction;

    ghost value_of = { λ e. e.fields.direction };

    ghost with_value = { λ direction e. record e { fields = record e.fields { direction = direction } } };

    fn set(entry: &mut BTermEntry, direction: Direction) -> Direction {
        mem::replace(&mut entry.fields.direction, direction)
    }

    ghost named = { λ e direction. refl };

    ghost last = { λ e first second. refl };
}

/// The properties of an instance.
pub(crate) struct InstProps {}

impl Field<InstEntry> for InstProps {
    ghost use Rattle.std.specs.Prelude.{refl};

    type Value = Ids;

    ghost value_of = { λ e. e.props };

    ghost with_value = { λ props e. record e { props = props } };

    fn set(entry: &mut InstEntry, props: Ids) -> Ids {
        mem::replace(&mut entry.props, props)
    }

    ghost named = { λ e props. refl };

    ghost last = { λ e first second. refl };
}

/// The terminals of a net.
pub(crate) struct NetTerms {}

impl Field<NetEntry> for NetTerms {
    ghost use Rattle.std.specs.Prelude.{refl};

    type Value = Ids;

    ghost value_of = { λ e. e.terms };

    ghost with_value = { λ terms e. record e { terms = terms } };

    fn set(entry: &mut NetEntry, terms: Ids) -> Ids {
        mem::replace(&mut entry.terms, terms)
    }

    ghost named = { λ e terms. refl };

    ghost last = { λ e first second. refl };
}

/// The wires of a net.
pub(crate) struct NetWires {}

impl Field<NetEntry> for NetWires {
    ghost use Rattle.std.specs.Prelude.{refl};

    type Value = Ids;

    ghost value_of = { λ e. e.wires };

    ghost with_value = { λ wires e. record e { wires = wires } };

    fn set(entry: &mut NetEntry, wires: Ids) -> Ids {
        mem::replace(&mut entry.wires, wires)
    }

    ghost named = { λ e wires. refl };

    ghost last = { λ e first second. refl };
}

/// The properties of a net.
pub(crate) struct NetProps {}

impl Field<NetEntry> for NetProps {
    ghost use Rattle.std.specs.Prelude.{refl};

    type Value = Ids;

    ghost value_of = { λ e. e.props };

    ghost with_value = { λ props e. record e { props = props } };

    fn set(entry: &mut NetEntry, props: Ids) -> Ids {
        mem::replace(&mut entry.props, props)
    }

    ghost named = { λ e props. refl };

    ghost last = { λ e first second. refl };
}

/// The pins of a block terminal.
pub(crate) struct BTermPins {}

impl Field<BTermEntry> for BTermPins {
    ghost use Rattle.std.specs.Prelude.{refl};

    type Value = Ids;

    ghost value_of = { λ e. e.pins };

    ghost with_value = { λ pins e. record e { pins = pins } };

    fn set(entry: &mut BTermEntry, pins: Ids) -> Ids {
        mem::replace(&mut entry.pins, pins)
    }

    ghost named = { λ e pins. refl };

    ghost last = { λ e first second. refl };
}

/// The properties of a row.
pub(crate) struct RowProps {}

impl Field<RowEntry> for RowProps {
    ghost use Rattle.std.specs.Prelude.{refl};

    type Value = Ids;

    ghost value_of = { λ e. e.props };

    ghost with_value = { λ props e. record e { props = props } };

    fn set(entry: &mut RowEntry, props: Ids) -> Ids {
        mem::replace(&mut entry.props, props)
    }

    ghost named = { λ e props. refl };

    ghost last = { λ e first second. refl };
}

/// The groups of a region.
pub(crate) struct RegionGroups {}

impl Field<RegionEntry> for RegionGroups {
    ghost use Rattle.std.specs.Prelude.{refl};

    type Value = Ids;

    ghost value_of = { λ e. e.groups };

    ghost with_value = { λ groups e. record e { groups = groups } };

    fn set(entry: &mut RegionEntry, groups: Ids) -> Ids {
        mem::replace(&mut entry.groups, groups)
    }

    ghost named = { λ e groups. refl };

    ghost last = { λ e first second. refl };
}

/// The properties of a region.
pub(crate) struct RegionProps {}

impl Field<RegionEntry> for RegionProps {
    ghost use Rattle.std.specs.Prelude.{refl};

    type Value = Ids;

    ghost value_of = { λ e. e.props };

    ghost with_value = { λ props e. record e { props = props } };

    fn set(entry: &mut RegionEntry, props: Ids) -> Ids {
        mem::replace(&mut entry.props, props)
    }

    ghost named = { λ e props. refl };

    ghost last = { λ e first second. refl };
}

/// The members of a group.
pub(crate) struct GroupMembers {}

impl Field<GroupEntry> for GroupMembers {
    ghost use Rattle.std.specs.Prelude.{refl};

    type Value = Ids;

    ghost value_of = { λ e. e.members };

    ghost with_value = { λ members e. record e { members = members } };

    fn set(entry: &mut GroupEntry, members: Ids) -> Ids {
        mem::replace(&mut entry.members, members)
    }

    ghost named = { λ e members. refl };

    ghost last = { λ e first second. refl };
}

/// The properties of a group.
pub(crate) struct GroupProps {}

impl Field<GroupEntry> for GroupProps {
    ghost use Rattle.std.specs.Prelude.{refl};

    type Value = Ids;

    ghost value_of = { λ e. e.props };

    ghost with_value = { λ props e. record e { props = props } };

    fn set(entry: &mut GroupEntry, props: Ids) -> Ids {
        mem::replace(&mut entry.props, props)
    }

    ghost named = { λ e props. refl };

    ghost last = { λ e first second. refl };
}
