ghost use Rattle.std.specs.Prelude.{◌≡◌};
ghost use Rattle.def_drafts.specs.Values.{IsGiven};
ghost use Rattle.def_reader.specs.Opening.{definition_begun, element_in, named_in, passed_at, section_at, section_begun, stands_in, taken_at, through, top_begun};

use def_drafts::values::name_at;
use def_drafts::{
    BlockageDraft, ComponentDraft, DefBegun, DefinitionDraft, Element, GroupDraft, PinDraft,
    RegionDraft, RowDraft, TrackDraft, ViaDraft,
};
use def_forms::{Class, Flaw, Keyword, Section, Statement, owner_of};
use def_tree::DefTree;
use ld_forms::{Extent, Kept, is_semicolon};
use ld_reader::{Begun, Stop};
use odb_base::Name;
use std::alloc::Global;

/// What a word begins outside all sections.
#[tactic(auto, unfolding(crate::specs::Opening::top_begun))]
pub fn top_begun(word: &[u8]) -> DefBegun
    ensures { result ≡ top_begun word.now }
{
    if is_semicolon(word) {
        Begun::Bad(Flaw::Unexpected)
    } else if let Some(section) = section_at(word) {
        Begun::Taken(Statement::Header(section))
    } else if let Some(statement) = taken_at(word) {
        Begun::Taken(statement)
    } else {
        Begun::Passed(passed_at(word))
    }
}

// The section that a word begins.
#[tactic(auto, unfolding(crate::specs::Opening::section_at))]
fn section_at(word: &[u8]) -> Option<Section>
    ensures { result ≡ section_at word.now }
{
    if Keyword::PropertyDefinitions.is(word) {
        Some(Section::Definitions)
    } else if Keyword::Vias.is(word) {
        Some(Section::Vias)
    } else if Keyword::Regions.is(word) {
        Some(Section::Regions)
    } else if Keyword::Components.is(word) {
        Some(Section::Components)
    } else if Keyword::Pins.is(word) {
        Some(Section::Pins)
    } else if Keyword::Blockages.is(word) {
        Some(Section::Blockages)
    } else if Keyword::SpecialNets.is(word) {
        Some(Section::SpecialNets)
    } else if Keyword::Nets.is(word) {
        Some(Section::Nets)
    } else if Keyword::Groups.is(word) {
        Some(Section::Groups)
    } else {
        None
    }
}

// The statement that a word begins.
#[tactic(auto, unfolding(crate::specs::Opening::taken_at))]
fn taken_at(word: &[u8]) -> Option<Statement>
    ensures { result ≡ taken_at word.now }
{
    if Keyword::Row.is(word) {
        Some(Statement::Row)
    } else if Keyword::Tracks.is(word) {
        Some(Statement::Tracks)
    } else if Keyword::End.is(word) {
        Some(Statement::End)
    } else if Keyword::Version.is(word) {
        Some(Statement::Version)
    } else if Keyword::DividerChar.is(word) {
        Some(Statement::Divider)
    } else if Keyword::BusBitChars.is(word) {
        Some(Statement::Bus)
    } else if Keyword::Design.is(word) {
        Some(Statement::Design)
    } else if Keyword::Units.is(word) {
        Some(Statement::Units)
    } else if Keyword::DieArea.is(word) {
        Some(Statement::Die)
    } else {
        None
    }
}

// How far a part is passed over that the word begins.
#[tactic(auto, unfolding(crate::specs::Opening::passed_at))]
fn passed_at(word: &[u8]) -> Extent<Class>
    ensures { result ≡ passed_at word.now }
{
    if Keyword::BeginExt.is(word) {
        Extent::Word(Class::Word(Keyword::EndExt))
    } else if Keyword::Styles.is(word) {
        through(Keyword::Styles)
    } else if Keyword::NonDefaultRules.is(word) {
        through(Keyword::NonDefaultRules)
    } else if Keyword::Slots.is(word) {
        through(Keyword::Slots)
    } else if Keyword::Fills.is(word) {
        through(Keyword::Fills)
    } else if Keyword::ScanChains.is(word) {
        through(Keyword::ScanChains)
    } else if Keyword::PinProperties.is(word) {
        through(Keyword::PinProperties)
    } else {
        Extent::Statement
    }
}

// Through `END` and this word.
fn through(keyword: Keyword) -> Extent<Class>
    ensures { result ≡ through keyword }
{
    Extent::Words(Class::Word(Keyword::End), Class::Word(keyword))
}

/// What a word begins in a section, between its elements.
#[tactic(auto, unfolding(crate::specs::Opening::section_begun))]
pub fn section_begun(section: Section, word: &[u8]) -> DefBegun
    ensures { result ≡ section_begun section word.now }
{
    if Keyword::End.is(word) {
        return Begun::Taken(Statement::End);
    }
    match section {
        Section::Definitions => definition_begun(word),
        _ if Keyword::Dash.is(word) => Begun::Taken(Statement::Element(section)),
        _ => Begun::Bad(Flaw::Unexpected),
    }
}

// What a word begins among definitions of properties. Those of other owners are passed over.
fn definition_begun(word: &[u8]) -> DefBegun
    ensures { result ≡ definition_begun word.now }
{
    if is_semicolon(word) {
        return Begun::Bad(Flaw::Unexpected);
    }
    match owner_of(word) {
        Some(owner) => Begun::Taken(Statement::Definition(owner)),
        None => Begun::Passed(Extent::Statement),
    }
}

/// The element that a statement begins, of a name that none in the tree may have that stands in such a section.
#[tactic(auto, unfolding(crate::specs::Opening::element_in))]
pub fn element_in(
    alloc: Global,
    tree: &DefTree,
    statement: Statement,
    words: &Kept,
) -> Result<Element, Stop<Flaw>>
    ensures { IsGiven (element_in tree.now statement words.now) result }
{
    match statement {
        Statement::Tracks => Ok(Element::Track(TrackDraft::new(alloc, words))),
        Statement::Element(Section::Blockages) => {
            Ok(Element::Blockage(BlockageDraft::new(alloc)))
        }
        _ => {
            let name = name_at(alloc, words, 0)?;
            named(alloc, tree, statement, name)
        }
    }
}

// The element of this name that a statement begins.
fn named(
    alloc: Global,
    tree: &DefTree,
    statement: Statement,
    name: Name,
) -> Result<Element, Stop<Flaw>>
    ensures { IsGiven (named_in tree.now statement name) result }
{
    if stands(tree, statement, name.bytes()) {
        drop(name);
        return Err(Stop::Fault(Flaw::Duplicate));
    }
    Ok(match statement {
        Statement::Definition(owner) => {
            Element::Definition(DefinitionDraft::new(alloc, owner, name))
        }
        Statement::Element(Section::Vias) => Element::Via(ViaDraft::new(alloc, name)),
        Statement::Element(Section::Regions) => Element::Region(RegionDraft::new(alloc, name)),
        Statement::Element(Section::Components) => {
            Element::Component(ComponentDraft::new(alloc, name))
        }
        Statement::Element(Section::Pins) => Element::Pin(PinDraft::new(alloc, name)),
        Statement::Element(Section::Groups) => Element::Group(GroupDraft::new(alloc, name)),
        _ => Element::Row(RowDraft::new(alloc, name)),
    })
}

// Whether an element of such a section has the name.
#[tactic(auto, unfolding(crate::specs::Opening::stands_in))]
fn stands(tree: &DefTree, statement: Statement, name: &[u8]) -> bool
    ensures { result ≡ stands_in tree.now statement name.now }
{
    match statement {
        Statement::Definition(owner) => tree.definitions.of(owner).has(name),
        Statement::Element(Section::Vias) => tree.vias.has(name),
        Statement::Element(Section::Regions) => tree.regions.has(name),
        Statement::Element(Section::Components) => tree.components.has(name),
        Statement::Element(Section::Pins) => tree.pins.has(name),
        Statement::Element(Section::Groups) => tree.groups.has(name),
        _ => tree.rows.has(name),
    }
}
