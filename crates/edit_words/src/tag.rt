ghost use Rattle.std.specs.Prelude.{◌≡◌};
ghost use Rattle.edit_words.specs.Tag.{new_at};

use odb_base::Kind;

/// Which step it was, and the identifiers in it: what has to be known of a step, beside its memo, to take it
/// back. It has no list and no name, and is copied freely.
#[derive(Clone, Copy, Debug, PartialEq, Eq)]
pub enum Tag {
    NewInst { id: u32, master: u32 },
    NewNet { id: u32 },
    NewBTerm { id: u32 },
    NewRow { id: u32 },
    Del { kind: Kind, id: u32 },
    Rename { kind: Kind, id: u32 },
    Swap { inst: u32 },
    Place { kind: Kind, id: u32 },
    SetUse { kind: Kind, id: u32 },
    SetDir { bterm: u32 },
    MakeSpecial { net: u32 },
    Join { kind: Kind, id: u32, net: u32 },
    Part { kind: Kind, id: u32, net: u32 },
}

impl Tag {
    /// The kind and the identifier of the object that the step makes, if it makes one.
    pub fn new_object(self) -> Option<(Kind, u32)>
        ensures { result ≡ new_at self }
    {
        match self {
            Tag::NewInst { id, .. } => Some((Kind::Inst, id)),
            Tag::NewNet { id } => Some((Kind::Net, id)),
            Tag::NewBTerm { id } => Some((Kind::BTerm, id)),
            Tag::NewRow { id } => Some((Kind::Row, id)),
            _ => None,
        }
    }
}
