ghost use Rattle.std.specs.Prelude.{◌≡◌};
ghost use Rattle.ld_reader.specs.Rules.{Gives};
ghost use Rattle.def_drafts.specs.Elements.{element_begun, element_set};

use crate::blockage::BlockageDraft;
use crate::component::ComponentDraft;
use crate::definition::DefinitionDraft;
use crate::group::GroupDraft;
use crate::net::NetDraft;
use crate::options::DefBegun;
use crate::pin::PinDraft;
use crate::region::RegionDraft;
use crate::row::RowDraft;
use crate::track::TrackDraft;
use crate::via::ViaDraft;
use def_forms::{Flaw, Statement};
use ld_forms::Kept;
use ld_reader::Stop;
use std::alloc::Global;

/// An element that is being read.
#[derive(Drop)]
pub enum Element {
    Definition(DefinitionDraft),
    Row(RowDraft),
    Track(TrackDraft),
    Via(ViaDraft),
    Region(RegionDraft),
    Component(ComponentDraft),
    Pin(PinDraft),
    Blockage(BlockageDraft),
    Net(NetDraft),
    Group(GroupDraft),
}

impl Element {
    /// What a word begins in it.
    pub fn begun(&self, word: &[u8]) -> DefBegun
        ensures { result ≡ element_begun self.now word.now }
    {
        match self {
            Element::Definition(draft) => draft.begun(word),
            Element::Row(draft) => draft.begun(word),
            Element::Track(draft) => draft.begun(word),
            Element::Via(draft) => draft.begun(word),
            Element::Region(draft) => draft.begun(word),
            Element::Component(draft) => draft.begun(word),
            Element::Pin(draft) => draft.begun(word),
            Element::Blockage(draft) => draft.begun(word),
            Element::Net(draft) => draft.begun(word),
            Element::Group(draft) => draft.begun(word),
        }
    }

    /// Sets what a statement sets in it.
    pub fn set(
        &mut self,
        alloc: Global,
        statement: Statement,
        words: &Kept,
    ) -> Result<(), Stop<Flaw>>
        ensures { Gives (element_set self.old statement words.now) self.new result }
    {
        match self {
            Element::Definition(draft) => draft.set(statement, words),
            Element::Row(draft) => draft.set(alloc, statement, words),
            Element::Track(draft) => draft.set(alloc, statement, words),
            Element::Via(draft) => draft.set(alloc, statement, words),
            Element::Region(draft) => draft.set(alloc, statement, words),
            Element::Component(draft) => draft.set(alloc, statement, words),
            Element::Pin(draft) => draft.set(alloc, statement, words),
            Element::Blockage(draft) => draft.set(alloc, statement, words),
            Element::Net(draft) => draft.set(alloc, statement, words),
            Element::Group(draft) => draft.set(alloc, statement, words),
        }
    }
}
