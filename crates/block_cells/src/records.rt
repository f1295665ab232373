ghost use Rattle.std.specs.Prelude.{◌≡◌, option_copied, option_map};
ghost use Rattle.slot_pool.specs.Table.{record_at};

use crate::pools::Pools;
use block_records::{
    BTermRec, BlockageRec, GroupRec, ITermRec, InstRec, NetRec, PinRec, PropRec, RegionRec, RowRec,
    TrackRec, WireRec,
};

// Each of these lends the record of an object. There is none for 0, for an identifier past the slots, and for an
// empty slot.
impl Pools {
    /// An instance.
    pub fn inst(&self, id: u32) -> Option<&InstRec>
        ensures { option_copied result ≡ option_map (λ x. x.value.fields) (record_at self.now.cells.inst id) }
    {
        Some(&self.inst.pool.get(id)?.value.fields)
    }

    /// A terminal of an instance.
    pub fn iterm(&self, id: u32) -> Option<&ITermRec>
        ensures { option_copied result ≡ option_map (λ x. x.value) (record_at self.now.cells.iterm id) }
    {
        Some(&self.terms.first.get(id)?.value)
    }

    /// A net.
    pub fn net(&self, id: u32) -> Option<&NetRec>
        ensures { option_copied result ≡ option_map (λ x. x.fields) (record_at self.now.cells.net id) }
    {
        Some(&self.net.get(id)?.fields)
    }

    /// A terminal of the block.
    pub fn bterm(&self, id: u32) -> Option<&BTermRec>
        ensures { option_copied result ≡ option_map (λ x. x.value.fields) (record_at self.now.cells.bterm id) }
    {
        Some(&self.terms.second.get(id)?.value.fields)
    }

    /// A pin of a block terminal.
    pub fn pin(&self, id: u32) -> Option<&PinRec>
        ensures { option_copied result ≡ option_map (λ x. x.value) (record_at self.now.cells.pin id) }
    {
        Some(&self.pin.pool.get(id)?.value)
    }

    /// A row.
    pub fn row(&self, id: u32) -> Option<&RowRec>
        ensures { option_copied result ≡ option_map (λ x. x.fields) (record_at self.now.cells.row id) }
    {
        Some(&self.row.get(id)?.fields)
    }

    /// Tracks.
    pub fn track(&self, id: u32) -> Option<&TrackRec>
        ensures { option_copied result ≡ record_at self.now.cells.track id }
    {
        self.track.get(id)
    }

    /// A wire.
    pub fn wire(&self, id: u32) -> Option<&WireRec>
        ensures { option_copied result ≡ option_map (λ x. x.value) (record_at self.now.cells.wire id) }
    {
        Some(&self.wire.pool.get(id)?.value)
    }

    /// A blockage.
    pub fn blockage(&self, id: u32) -> Option<&BlockageRec>
        ensures { option_copied result ≡ record_at self.now.cells.blockage id }
    {
        self.blockage.get(id)
    }

    /// A region.
    pub fn region(&self, id: u32) -> Option<&RegionRec>
        ensures { option_copied result ≡ option_map (λ x. x.fields) (record_at self.now.cells.region id) }
    {
        Some(&self.region.get(id)?.fields)
    }

    /// A group.
    pub fn group(&self, id: u32) -> Option<&GroupRec>
        ensures { option_copied result ≡ option_map (λ x. x.value.fields) (record_at self.now.cells.group id) }
    {
        Some(&self.group.pool.get(id)?.value.fields)
    }

    /// A property.
    pub fn prop(&self, id: u32) -> Option<&PropRec>
        ensures { option_copied result ≡ option_map (λ x. x.value) (record_at self.now.cells.prop id) }
    {
        Some(&self.prop.pool.get(id)?.value)
    }
}
