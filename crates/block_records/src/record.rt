ghost use Rattle.std.specs.Prelude.{◌≡◌};
ghost use Rattle.block_records.specs.Record.{kind_of};

use crate::blockage::BlockageRec;
use crate::bterm::BTermRec;
use crate::group::GroupRec;
use crate::inst::InstRec;
use crate::iterm::ITermRec;
use crate::net::NetRec;
use crate::pin::PinRec;
use crate::prop::PropRec;
use crate::region::RegionRec;
use crate::row::RowRec;
use crate::track::TrackRec;
use crate::wire::WireRec;
use odb_base::Kind;

/// A record of any kind.
#[derive(Debug, Drop)]
pub enum Record {
    Inst(InstRec),
    ITerm(ITermRec),
    Net(NetRec),
    BTerm(BTermRec),
    Pin(PinRec),
    Row(RowRec),
    Track(TrackRec),
    Wire(WireRec),
    Blockage(BlockageRec),
    Region(RegionRec),
    Group(GroupRec),
    Prop(PropRec),
}

impl Record {
    /// The kind of the object.
    pub fn kind(&self) -> Kind
        ensures { result ≡ kind_of self.now }
    {
        match self {
            Record::Inst(_) => Kind::Inst,
            Record::ITerm(_) => Kind::ITerm,
            Record::Net(_) => Kind::Net,
            Record::BTerm(_) => Kind::BTerm,
            Record::Pin(_) => Kind::Pin,
            Record::Row(_) => Kind::Row,
            Record::Track(_) => Kind::Track,
            Record::Wire(_) => Kind::Wire,
            Record::Blockage(_) => Kind::Blockage,
            Record::Region(_) => Kind::Region,
            Record::Group(_) => Kind::Group,
            Record::Prop(_) => Kind::Prop,
        }
    }
}
