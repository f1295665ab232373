ghost use Rattle.std.specs.Prelude.{◌≡◌};
ghost use Rattle.def_forms.specs.Forms.{element_places, places_of};

use crate::class::Class;
use crate::keyword::Keyword;
use crate::section::Section;
use crate::word_set::WordSet;
use ld_forms::Place;
use odb_base::{Owner, PlaceStatus, WireStatus};

/// A statement of DEF, or a part of one (LEF/DEF 5.8 Language Reference, DEF Syntax). Each stands with its form. An element
/// of a section and its options are parts of their own, since what may follow depends on what was read.
#[derive(Clone, Copy, Debug, PartialEq, Eq)]
pub enum Statement {
    /// `VERSION w ;`.
    Version,
    /// `DIVIDERCHAR "c" ;`.
    Divider,
    /// `BUSBITCHARS "cc" ;`.
    Bus,
    /// `DESIGN name ;`.
    Design,
    /// `UNITS DISTANCE MICRONS n ;`.
    Units,
    /// `DIEAREA ( x y ) ( x y ) ;`.
    Die,
    /// The word of a section.
    Header(Section),
    /// `n ;` behind the word of a section.
    Count,
    /// `END w`.
    End,
    /// `ROW name`.
    Row,
    /// `site x y orientation [DO nx BY ny [STEP sx sy]]` behind the name of a row.
    RowSites,
    /// `TRACKS axis start DO n STEP s`.
    Tracks,
    /// `name` of a layer, behind `LAYER` of tracks.
    TrackLayer,
    /// `OWNER name` of a definition.
    Definition(Owner),
    /// `type` behind the name of a definition.
    DefinitionType,
    /// A further word of a definition.
    DefinitionWord,
    /// `- name`, or `-` of a blockage.
    Element(Section),
    /// `;`.
    EndElement,
    /// What can't stand where it does.
    Stray,
    /// `+`.
    Plus,
    /// A word of an option that is kept.
    KeptWord,
    /// `name` of a property, behind `PROPERTY` or a value.
    Property,
    /// `value` behind the name of a property.
    PropertyValue,
    /// `name` of the master, behind that of a component.
    Master,
    /// `( x y ) orientation` behind `PLACED`, `FIXED` or `COVER`.
    Place(PlaceStatus),
    /// `UNPLACED`.
    Unplaced,
    /// `( x y ) ( x y )` of a region, or behind the layer of a port.
    Rect,
    /// `( x y ) ( x y )` behind `RECT` of a blockage.
    BlockedRect,
    /// `type` behind `TYPE`.
    RegionType,
    /// `name` behind `NET` of a pin.
    Net,
    /// `direction` behind `DIRECTION`.
    Direction,
    /// `use` behind `USE`.
    Use,
    /// `PORT`.
    Port,
    /// `LAYER` of a pin.
    Layer,
    /// The word behind `LAYER` of a pin.
    LayerWord,
    /// `name` behind `LAYER` of a blockage.
    BlockedLayer,
    /// `PLACEMENT` of a blockage.
    BlockedPlacement,
    /// `name` of a component of a group.
    Member,
    /// `name` behind `REGION`.
    GroupRegion,
    /// `ROUTED`, `FIXED` or `COVER` of a net.
    Wire(WireStatus),
    /// A word of the paths of a wire.
    PathWord,
    /// `( component terminal [+ SYNTHESIZED] )`, where the first name may be `PIN`.
    Connection { special: bool },
}

impl Statement {
    /// The places behind the first word of a statement, or with it.
    pub fn places(self) -> &'static [Place<Class>]
        ensures { result.now ≡ places_of self }
    {
        match self {
            Statement::Version => &[Place::One(Class::Any), Place::End],
            Statement::Divider => &[Place::One(Class::Divider), Place::End],
            Statement::Bus => &[Place::One(Class::Bus), Place::End],
            Statement::Design => &[Place::One(Class::Name), Place::End],
            Statement::Units => &[
                Place::Key(Class::Word(Keyword::Distance)),
                Place::Key(Class::Word(Keyword::Microns)),
                Place::One(Class::PerMicron),
                Place::End,
            ],
            Statement::Die => &[
                Place::Key(Class::Word(Keyword::Open)),
                Place::One(Class::Coordinate),
                Place::One(Class::Coordinate),
                Place::Key(Class::Word(Keyword::Close)),
                Place::Key(Class::Word(Keyword::Open)),
                Place::One(Class::Coordinate),
                Place::One(Class::Coordinate),
                Place::Key(Class::Word(Keyword::Close)),
                Place::Maybe(Class::ThirdPoint),
                Place::End,
            ],
            Statement::Header(_) => &[],
            Statement::Count => &[Place::One(Class::Number), Place::End],
            Statement::End => &[Place::One(Class::Every)],
            Statement::Row => &[Place::One(Class::Name)],
            Statement::RowSites => &[
                Place::One(Class::Name),
                Place::One(Class::Coordinate),
                Place::One(Class::Coordinate),
                Place::One(Class::OneOf(WordSet::Orientation)),
                Place::Group(Class::Word(Keyword::Do), 6),
                Place::One(Class::Count),
                Place::Key(Class::Word(Keyword::By)),
                Place::One(Class::Count),
                Place::Group(Class::Word(Keyword::Step), 2),
                Place::One(Class::Coordinate),
                Place::One(Class::Coordinate),
            ],
            Statement::Tracks => &[
                Place::One(Class::OneOf(WordSet::Axis)),
                Place::One(Class::Coordinate),
                Place::Key(Class::Word(Keyword::Do)),
                Place::One(Class::Count),
                Place::Key(Class::Word(Keyword::Step)),
                Place::One(Class::Step),
            ],
            Statement::TrackLayer => &[Place::One(Class::Name)],
            Statement::Definition(_) => &[Place::One(Class::Name)],
            Statement::DefinitionType => &[Place::One(Class::OneOf(WordSet::PropType))],
            Statement::DefinitionWord => &[Place::One(Class::Any)],
            Statement::Element(section) => element_places(section),
            Statement::EndElement => &[Place::End],
            Statement::Stray => &[Place::Key(Class::Nothing)],
            Statement::Plus => &[],
            Statement::KeptWord => &[Place::One(Class::Loose)],
            Statement::Property => &[Place::One(Class::Name)],
            Statement::PropertyValue => &[Place::One(Class::Loose)],
            Statement::Master => &[Place::One(Class::Name)],
            Statement::Place(_) => &[
                Place::Key(Class::Word(Keyword::Open)),
                Place::One(Class::Coordinate),
                Place::One(Class::Coordinate),
                Place::Key(Class::Word(Keyword::Close)),
                Place::One(Class::OneOf(WordSet::Orientation)),
            ],
            Statement::Unplaced => &[],
            Statement::Rect => &[
                Place::Key(Class::Word(Keyword::Open)),
                Place::One(Class::Coordinate),
                Place::One(Class::Coordinate),
                Place::Key(Class::Word(Keyword::Close)),
                Place::Key(Class::Word(Keyword::Open)),
                Place::One(Class::Coordinate),
                Place::One(Class::Coordinate),
                Place::Key(Class::Word(Keyword::Close)),
            ],
            Statement::BlockedRect => &[
                Place::Key(Class::BlockedWord(Keyword::Open)),
                Place::One(Class::BlockedCoordinate),
                Place::One(Class::BlockedCoordinate),
                Place::Key(Class::BlockedWord(Keyword::Close)),
                Place::Key(Class::BlockedWord(Keyword::Open)),
                Place::One(Class::BlockedCoordinate),
                Place::One(Class::BlockedCoordinate),
                Place::Key(Class::BlockedWord(Keyword::Close)),
            ],
            Statement::RegionType => &[Place::One(Class::OneOf(WordSet::RegionType))],
            Statement::Net => &[Place::One(Class::Name)],
            Statement::Direction => &[Place::One(Class::OneOf(WordSet::Direction))],
            Statement::Use => &[Place::One(Class::OneOf(WordSet::Use))],
            Statement::Port => &[],
            Statement::Layer => &[],
            Statement::LayerWord => &[Place::One(Class::Every)],
            Statement::BlockedLayer => &[Place::One(Class::Name)],
            Statement::BlockedPlacement => &[],
            Statement::Member => &[Place::One(Class::Member)],
            Statement::GroupRegion => &[Place::One(Class::Name)],
            Statement::Wire(_) => &[],
            Statement::PathWord => &[Place::One(Class::Every)],
            Statement::Connection { special: true } => &[
                Place::Key(Class::Word(Keyword::Open)),
                Place::One(Class::Joined { special: true }),
                Place::One(Class::Name),
                Place::Group(Class::Word(Keyword::Plus), 1),
                Place::Key(Class::Word(Keyword::Synthesized)),
                Place::Key(Class::Word(Keyword::Close)),
            ],
            Statement::Connection { special: false } => &[
                Place::Key(Class::Word(Keyword::Open)),
                Place::One(Class::Joined { special: false }),
                Place::One(Class::Name),
                Place::Group(Class::Word(Keyword::Plus), 1),
                Place::Key(Class::Word(Keyword::Synthesized)),
                Place::Key(Class::Word(Keyword::Close)),
            ],
        }
    }
}

// What stands behind the `-` of an element.
fn element_places(section: Section) -> &'static [Place<Class>]
    ensures { result.now ≡ element_places section }
{
    match section {
        Section::Vias => &[Place::One(Class::ViaName)],
        Section::SpecialNets | Section::Nets => &[Place::One(Class::NetName)],
        Section::Blockages => &[],
        Section::Definitions
        | Section::Regions
        | Section::Components
        | Section::Pins
        | Section::Groups => &[Place::One(Class::Name)],
    }
}
