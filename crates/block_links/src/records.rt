ghost use Rattle.std.specs.Prelude.{◌≡◌, option_copied, option_map};
ghost use Rattle.slot_pool.specs.Table.{record_at};

use crate::block::Block;
use block_records::{
    BTermRec, BlockageRec, GroupRec, ITermRec, InstRec, NetRec, PinRec, PropRec, RegionRec, RowRec,
    TrackRec, WireRec,
};
use odb_base::{
    BTermId, BlockageId, GroupId, ITermId, InstId, NetId, PinId, PropId, RegionId, RowId, TrackId,
    WireId,
};

// Each of these lends the record of an object. There is none for 0, for an identifier past the slots, and for an
// empty slot.
impl Block {
    /// An instance.
    pub fn inst(&self, id: InstId) -> Option<&InstRec>
        ensures { option_copied result ≡ option_map (λ e. e.fields) (record_at self.now.block.inst id.0) }
    {
        self.pools.inst(id.0)
    }

    /// A terminal of an instance.
    pub fn iterm(&self, id: ITermId) -> Option<&ITermRec>
        ensures { option_copied result ≡ record_at self.now.block.iterm id.0 }
    {
        self.pools.iterm(id.0)
    }

    /// A net.
    pub fn net(&self, id: NetId) -> Option<&NetRec>
        ensures { option_copied result ≡ option_map (λ e. e.fields) (record_at self.now.block.net id.0) }
    {
        self.pools.net(id.0)
    }

    /// A terminal of the block.
    pub fn bterm(&self, id: BTermId) -> Option<&BTermRec>
        ensures { option_copied result ≡ option_map (λ e. e.fields) (record_at self.now.block.bterm id.0) }
    {
        self.pools.bterm(id.0)
    }

    /// A pin of a block terminal.
    pub fn pin(&self, id: PinId) -> Option<&PinRec>
        ensures { option_copied result ≡ record_at self.now.block.pin id.0 }
    {
        self.pools.pin(id.0)
    }

    /// A row.
    pub fn row(&self, id: RowId) -> Option<&RowRec>
        ensures { option_copied result ≡ option_map (λ e. e.fields) (record_at self.now.block.row id.0) }
    {
        self.pools.row(id.0)
    }

    /// Tracks.
    pub fn track(&self, id: TrackId) -> Option<&TrackRec>
        ensures { option_copied result ≡ record_at self.now.block.track id.0 }
    {
        self.pools.track(id.0)
    }

    /// A wire.
    pub fn wire(&self, id: WireId) -> Option<&WireRec>
        ensures { option_copied result ≡ record_at self.now.block.wire id.0 }
    {
        self.pools.wire(id.0)
    }

    /// A blockage.
    pub fn blockage(&self, id: BlockageId) -> Option<&BlockageRec>
        ensures { option_copied result ≡ record_at self.now.block.blockage id.0 }
    {
        self.pools.blockage(id.0)
    }

    /// A region.
    pub fn region(&self, id: RegionId) -> Option<&RegionRec>
        ensures { option_copied result ≡ option_map (λ e. e.fields) (record_at self.now.block.region id.0) }
    {
        self.pools.region(id.0)
    }

    /// A group.
    pub fn group(&self, id: GroupId) -> Option<&GroupRec>
        ensures { option_copied result ≡ option_map (λ e. e.fields) (record_at self.now.block.group id.0) }
    {
        self.pools.group(id.0)
    }

    /// A property.
    pub fn prop(&self, id: PropId) -> Option<&PropRec>
        ensures { option_copied result ≡ record_at self.now.block.prop id.0 }
    {
        self.pools.prop(id.0)
    }
}
