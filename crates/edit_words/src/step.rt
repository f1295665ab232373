ghost use Rattle.std.specs.Prelude.{◌≡◌, [], IfOk, option_map};
ghost use Rattle.edit_words.specs.Tag.{new_object, tag_of};

use crate::tag::Tag;
use block_records::{BTermRec, NetRec, Record, RowRec, Terminals};
use odb_base::{Direction, Kind, Name, Placement, Text, Usage};
use std::alloc::{AllocError, Global};

/// An elementary change of a block.
#[derive(Debug, Drop)]
pub enum Step {
    /// An instance under the identifier that its table gives next, unplaced, with terminals under those that
    /// their table gives next, one for each terminal of the master and joined to nothing.
    NewInst {
        id: u32,
        name: Name,
        master: u32,
        terminals: Terminals,
    },
    /// A net without terminals, of no use and not special.
    NewNet {
        id: u32,
        name: Name,
    },
    /// A terminal of the block, joined to nothing, of no direction and no use.
    NewBTerm {
        id: u32,
        name: Name,
    },
    /// A row of sites, without properties.
    NewRow {
        id: u32,
        row: RowRec,
    },
    /// An object goes on which nothing hangs; an instance with its terminals, which are given back from the
    /// last to the first.
    Del {
        kind: Kind,
        id: u32,
    },
    /// An object gets another name.
    Rename {
        kind: Kind,
        id: u32,
        name: Name,
    },
    /// An instance gets a master whose terminals have the same names. Its terminals keep their identifiers,
    /// nets and names, and stand in the order of the new master.
    Swap {
        inst: u32,
        master: u32,
    },
    /// An instance or a pin gets a placement.
    Place {
        kind: Kind,
        id: u32,
        place: Placement,
    },
    /// A net or a terminal of the block gets a use.
    SetUse {
        kind: Kind,
        id: u32,
        usage: Usage,
    },
    /// A terminal of the block gets a direction.
    SetDir {
        bterm: u32,
        direction: Direction,
    },
    /// A net becomes special.
    MakeSpecial {
        net: u32,
    },
    /// A terminal that is joined to nothing is joined to a net, in front of the net's terminals.
    Join {
        kind: Kind,
        id: u32,
        net: u32,
    },
    /// A terminal is parted from the net that it is joined to.
    Part {
        kind: Kind,
        id: u32,
        net: u32,
    },
}

impl Step {
    /// The step without what moves into the block.
    pub fn tag(&self) -> Tag
        ensures { result ≡ tag_of self.now }
    {
        match self {
            Step::NewInst { id, master, .. } => Tag::NewInst {
                id: *id,
                master: *master,
            },
            Step::NewNet { id, .. } => Tag::NewNet { id: *id },
            Step::NewBTerm { id, .. } => Tag::NewBTerm { id: *id },
            Step::NewRow { id, .. } => Tag::NewRow { id: *id },
            Step::Del { kind, id } => Tag::Del {
                kind: *kind,
                id: *id,
            },
            Step::Rename { kind, id, .. } => Tag::Rename {
                kind: *kind,
                id: *id,
            },
            Step::Swap { inst, .. } => Tag::Swap { inst: *inst },
            Step::Place { kind, id, .. } => Tag::Place {
                kind: *kind,
                id: *id,
            },
            Step::SetUse { kind, id, .. } => Tag::SetUse {
                kind: *kind,
                id: *id,
            },
            Step::SetDir { bterm, .. } => Tag::SetDir { bterm: *bterm },
            Step::MakeSpecial { net } => Tag::MakeSpecial { net: *net },
            Step::Join { kind, id, net } => Tag::Join {
                kind: *kind,
                id: *id,
                net: *net,
            },
            Step::Part { kind, id, net } => Tag::Part {
                kind: *kind,
                id: *id,
                net: *net,
            },
        }
    }

    /// The record of the object that the step makes and nothing beside it, if it makes one. It takes no memory.
    pub fn into_object(self, alloc: Global) -> Option<Record>
        ensures { result ≡ option_map (λ new. new.object) (new_object self) }
    {
        match self {
            Step::NewNet { name, .. } => Some(Record::Net(NetRec {
                name,
                usage: Usage::None,
                special: false,
                kept: no_words(alloc),
                special_kept: no_words(alloc),
            })),
            Step::NewBTerm { name, .. } => Some(Record::BTerm(BTermRec {
                name,
                net: 0,
                direction: Direction::None,
                usage: Usage::None,
                kept: no_words(alloc),
            })),
            Step::NewRow { row, .. } => Some(Record::Row(row)),
            other => {
                drop(other);
                None
            }
        }
    }

    /// An equal step.
    pub fn try_clone(&self) -> Result<Step, AllocError>
        ensures { IfOk result (λ step. step ≡ self.now) }
    {
        match self {
            Step::NewInst {
                id,
                name,
                master,
                terminals,
            } => Ok(Step::NewInst {
                id: *id,
                name: name.try_clone()?,
                master: *master,
                terminals: terminals.try_clone()?,
            }),
            Step::NewNet { id, name } => Ok(Step::NewNet {
                id: *id,
                name: name.try_clone()?,
            }),
            Step::NewBTerm { id, name } => Ok(Step::NewBTerm {
                id: *id,
                name: name.try_clone()?,
            }),
            Step::NewRow { id, row } => Ok(Step::NewRow {
                id: *id,
                row: row.try_clone()?,
            }),
            Step::Rename { kind, id, name } => Ok(Step::Rename {
                kind: *kind,
                id: *id,
                name: name.try_clone()?,
            }),
            Step::Del { kind, id } => Ok(Step::Del {
                kind: *kind,
                id: *id,
            }),
            Step::Swap { inst, master } => Ok(Step::Swap {
                inst: *inst,
                master: *master,
            }),
            Step::Place { kind, id, place } => Ok(Step::Place {
                kind: *kind,
                id: *id,
                place: *place,
            }),
            Step::SetUse { kind, id, usage } => Ok(Step::SetUse {
                kind: *kind,
                id: *id,
                usage: *usage,
            }),
            Step::SetDir { bterm, direction } => Ok(Step::SetDir {
                bterm: *bterm,
                direction: *direction,
            }),
            Step::MakeSpecial { net } => Ok(Step::MakeSpecial { net: *net }),
            Step::Join { kind, id, net } => Ok(Step::Join {
                kind: *kind,
                id: *id,
                net: *net,
            }),
            Step::Part { kind, id, net } => Ok(Step::Part {
                kind: *kind,
                id: *id,
                net: *net,
            }),
        }
    }
}

// No words of DEF are kept of what is new.
fn no_words(alloc: Global) -> Text
    ensures { result ≡ [] }
{
    Text::from_vec(Vec::new(alloc))
}
