ghost use Rattle.std.specs.Prelude.{◌≡◌, ◌≤◌, ◌<◌, OnOk, Err, ◌↔◌};
ghost use Rattle.block_cells.specs.Rooms.{ChangesRoom, left_in, room_of};

use crate::every_kind::by_kind;
use crate::pools::Pools;
use odb_base::Kind;
use slot_pool::PoolFault;

impl Pools {
    /// Makes room for `n` new objects of a kind, and for their names. `Full` comes exactly where the cap doesn't allow
    /// so many. After a fault there is the room that there was.
    pub fn room(&mut self, kind: Kind, n: u32) -> Result<(), PoolFault>
        ensures ok { OnOk result (n ≤ room_of kind self.new.room) }
        ensures full { (result ≡ Err PoolFault.Full) ↔ (left_in kind self.old < n) }
        ensures cells { self.new.cells ≡ self.old.cells }
        ensures cap { self.new.cap ≡ self.old.cap }
        ensures room { room_of kind self.old.room ≤ room_of kind self.new.room }
        ensures others { ChangesRoom kind self.old.room self.new.room }
    {
        by_kind!(mut self, kind, pool => pool.reserve(n))
    }
}
