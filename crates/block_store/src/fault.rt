use odb_base::Kind;

/// Why there is no room for new objects.
#[derive(Clone, Copy, Debug, PartialEq, Eq)]
pub enum RoomFault {
    /// The cap of this kind's table allows too few.
    Full { kind: Kind },
    /// There is no memory for them.
    Memory,
}
