ghost use Rattle.std.specs.Prelude.{◌≡◌, ◌+◌, ◌<◌, ◌≤◌, ◌^◌, length};
ghost use Rattle.block_cells.specs.Cells.{free_in, later_in, live_count_in, slots_in};
ghost use Rattle.block_cells.specs.Rooms.{left_in};

use crate::every_kind::by_kind;
use crate::pools::Pools;
use odb_base::Kind;

impl Pools {
    /// The number of objects of a kind.
    pub fn live_count(&self, kind: Kind) -> u32
        ensures count { result ≡ live_count_in kind self.now.cells }
        ensures others { result + length (free_in kind self.now.cells) ≡ slots_in kind self.now.cells }
    {
        by_kind!(self, kind, pool => pool.live_count())
    }

    /// How many new objects of a kind the cap still allows.
    pub fn left(&self, kind: Kind) -> u32
        ensures left { result ≡ left_in kind self.now }
        ensures within { result ≤ self.now.cap }
    {
        by_kind!(self, kind, pool => pool.cap() - pool.live_count())
    }

    /// The identifier that a new object of a kind gets after `k` further ones.
    pub fn next_id(&self, kind: Kind, k: u32) -> u64
        ensures id { result ≡ later_in kind k self.now.cells }
        ensures fits { k < left_in kind self.now → result < 2 ^ 32 }
    {
        by_kind!(self, kind, pool => pool.next_id(k))
    }
}
