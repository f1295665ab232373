ghost use Rattle.std.specs.Prelude.{◌≡◌};
ghost use Rattle.lef_forms.specs.Forms.{form_in, form_of, places_of, rows_of};

use crate::class::Class;
use crate::keyword::Keyword;
use crate::word_set::WordSet;
use ld_forms::{Extent, Place};

/// A part of a LEF text that has statements of its own.
#[derive(Clone, Copy, Debug, PartialEq, Eq)]
pub enum Section {
    /// Outside all others.
    Top,
    /// `UNITS` to `END UNITS`.
    Units,
    /// `LAYER name` to `END name`.
    Layer,
    /// `VIA name` to `END name`.
    Via,
    /// `SITE name` to `END name`.
    Site,
    /// `MACRO name` to `END name`.
    Macro,
    /// `PIN name` to `END name`, in a macro.
    Pin,
    /// `PORT` to `END`, in a pin.
    Port,
    /// `OBS` to `END`, in a macro.
    Obs,
}

/// A statement that is taken, or the header of a section. Each stands with its form (LEF/DEF 5.8 Language
/// Reference, LEF Syntax), where `..` are words that aren't looked at.
#[derive(Clone, Copy, Debug, PartialEq, Eq)]
pub enum Statement {
    /// `UNITS`
    Units,
    /// `LAYER name`
    Layer,
    /// `VIA name [DEFAULT] [GENERATED] [TOPOFSTACKONLY]`
    Via,
    /// `SITE name`
    Site,
    /// `MACRO name`
    Macro,
    /// `DATABASE MICRONS n ;`
    Database,
    /// `TYPE w ;`
    LayerType,
    /// `DIRECTION w ;`
    LayerDirection,
    /// `PITCH a [b] ;`
    Pitch,
    /// `WIDTH a ;`
    Width,
    /// `SPACING a .. ;`
    Spacing,
    /// `LAYER name ;`
    ViaLayer,
    /// `LAYER name .. ;`
    ShapeLayer,
    /// `RECT [MASK n] x y x y ;`
    Rect,
    /// `CLASS w ;`
    SiteClass,
    /// `SYMMETRY w.. ;`
    Symmetry,
    /// `SIZE w BY h ;`
    Size,
    /// `CLASS w.. ;`
    MacroClass,
    /// `FOREIGN w.. ;`
    Foreign,
    /// `ORIGIN x y ;`
    Origin,
    /// `SITE name .. ;`
    MacroSite,
    /// `PIN name`
    Pin,
    /// `OBS`
    Obs,
    /// `DIRECTION OUTPUT [TRISTATE] ;` or `DIRECTION w ;`
    PinDirection,
    /// `USE w ;`
    PinUse,
    /// `PORT`
    Port,
    /// `END`, of a section that it ends alone.
    EndAlone,
    /// `END name`
    End,
}

/// What a first word begins.
#[derive(Clone, Copy, Debug, PartialEq, Eq)]
pub enum Form {
    Taken(Statement),
    Passed(Extent<Class>),
}

impl Section {
    /// The first words that begin something in the section, and what each begins.
    pub fn rows(self) -> &'static [(Keyword, Form)]
        ensures { result.now ≡ rows_of self }
    {
        match self {
            Section::Top => &[
                (Keyword::Units, Form::Taken(Statement::Units)),
                (Keyword::Layer, Form::Taken(Statement::Layer)),
                (Keyword::Via, Form::Taken(Statement::Via)),
                (Keyword::Site, Form::Taken(Statement::Site)),
                (Keyword::Macro, Form::Taken(Statement::Macro)),
                (
                    Keyword::PropertyDefinitions,
                    Form::Passed(Extent::Words(
                        Class::Word(Keyword::End),
                        Class::Word(Keyword::PropertyDefinitions),
                    )),
                ),
                (
                    Keyword::Spacing,
                    Form::Passed(Extent::Words(
                        Class::Word(Keyword::End),
                        Class::Word(Keyword::Spacing),
                    )),
                ),
                (
                    Keyword::ViaRule,
                    Form::Passed(Extent::Named(Class::Word(Keyword::End))),
                ),
                (
                    Keyword::NonDefaultRule,
                    Form::Passed(Extent::Named(Class::Word(Keyword::End))),
                ),
                (
                    Keyword::Array,
                    Form::Passed(Extent::Named(Class::Word(Keyword::End))),
                ),
            ],
            Section::Units => &[(Keyword::Database, Form::Taken(Statement::Database))],
            Section::Layer => &[
                (Keyword::Type, Form::Taken(Statement::LayerType)),
                (Keyword::Direction, Form::Taken(Statement::LayerDirection)),
                (Keyword::Pitch, Form::Taken(Statement::Pitch)),
                (Keyword::Width, Form::Taken(Statement::Width)),
                (Keyword::Spacing, Form::Taken(Statement::Spacing)),
                (
                    Keyword::AcCurrentDensity,
                    Form::Passed(Extent::Statements(
                        Class::OneOf(WordSet::Density),
                        Class::Word(Keyword::TableEntries),
                    )),
                ),
                (
                    Keyword::DcCurrentDensity,
                    Form::Passed(Extent::Statements(
                        Class::OneOf(WordSet::Density),
                        Class::Word(Keyword::TableEntries),
                    )),
                ),
            ],
            Section::Via => &[
                (Keyword::Layer, Form::Taken(Statement::ViaLayer)),
                (Keyword::Rect, Form::Taken(Statement::Rect)),
            ],
            Section::Site => &[
                (Keyword::Class, Form::Taken(Statement::SiteClass)),
                (Keyword::Symmetry, Form::Taken(Statement::Symmetry)),
                (Keyword::Size, Form::Taken(Statement::Size)),
            ],
            Section::Macro => &[
                (Keyword::Class, Form::Taken(Statement::MacroClass)),
                (Keyword::Foreign, Form::Taken(Statement::Foreign)),
                (Keyword::Origin, Form::Taken(Statement::Origin)),
                (Keyword::Size, Form::Taken(Statement::Size)),
                (Keyword::Symmetry, Form::Taken(Statement::Symmetry)),
                (Keyword::Site, Form::Taken(Statement::MacroSite)),
                (Keyword::Pin, Form::Taken(Statement::Pin)),
                (Keyword::Obs, Form::Taken(Statement::Obs)),
                (
                    Keyword::Density,
                    Form::Passed(Extent::Word(Class::Word(Keyword::End))),
                ),
                (
                    Keyword::Timing,
                    Form::Passed(Extent::Words(
                        Class::Word(Keyword::End),
                        Class::Word(Keyword::Timing),
                    )),
                ),
            ],
            Section::Pin => &[
                (Keyword::Direction, Form::Taken(Statement::PinDirection)),
                (Keyword::Use, Form::Taken(Statement::PinUse)),
                (Keyword::Port, Form::Taken(Statement::Port)),
            ],
            Section::Port => &[
                (Keyword::Layer, Form::Taken(Statement::ShapeLayer)),
                (Keyword::Rect, Form::Taken(Statement::Rect)),
            ],
            Section::Obs => &[
                (Keyword::Layer, Form::Taken(Statement::ShapeLayer)),
                (Keyword::Rect, Form::Taken(Statement::Rect)),
            ],
        }
    }

    /// What a first word begins in the section, or nothing where the statement is passed over.
    #[tactic(auto, unfolding(crate::specs::Forms::form_of))]
    pub fn form(self, word: &[u8]) -> Option<Form>
        ensures { result ≡ form_of self word.now }
    {
        if Keyword::BeginExt.is(word) {
            return Some(Form::Passed(Extent::Word(Class::Word(Keyword::EndExt))));
        }
        form_among(self.rows(), word)
    }
}

fn form_among(rows: &[(Keyword, Form)], word: &[u8]) -> Option<Form>
    ensures { result ≡ form_in rows.now word.now }
{
    for (first, form) in rows {
        if first.is(word) {
            return Some(*form);
        }
    }
    None
}

impl Statement {
    /// The places of the form behind the first word.
    pub fn places(self) -> &'static [Place<Class>]
        ensures { result.now ≡ places_of self }
    {
        match self {
            Statement::Units => &[],
            Statement::Layer => &[Place::One(Class::Name)],
            Statement::Via => &[
                Place::One(Class::ViaName),
                Place::Maybe(Class::Word(Keyword::Default)),
                Place::Maybe(Class::Word(Keyword::Generated)),
                Place::Maybe(Class::Word(Keyword::TopOfStackOnly)),
            ],
            Statement::Site => &[Place::One(Class::Name)],
            Statement::Macro => &[Place::One(Class::Name)],
            Statement::Database => &[
                Place::Key(Class::Word(Keyword::Microns)),
                Place::One(Class::PerMicron),
                Place::End,
            ],
            Statement::LayerType => &[Place::One(Class::OneOf(WordSet::LayerType)), Place::End],
            Statement::LayerDirection => &[
                Place::One(Class::OneOf(WordSet::LayerDirection)),
                Place::End,
            ],
            Statement::Pitch => &[
                Place::One(Class::Number),
                Place::Maybe(Class::Number),
                Place::End,
            ],
            Statement::Width => &[Place::One(Class::Number), Place::End],
            Statement::Spacing => &[Place::One(Class::Number), Place::Through],
            Statement::ViaLayer => &[Place::One(Class::Name), Place::End],
            Statement::ShapeLayer => &[Place::One(Class::Name), Place::Through],
            Statement::Rect => &[
                Place::Group(Class::Word(Keyword::Mask), 1),
                Place::One(Class::Number),
                Place::One(Class::Number),
                Place::One(Class::Number),
                Place::One(Class::Number),
                Place::One(Class::Number),
                Place::End,
            ],
            Statement::SiteClass => &[Place::One(Class::OneOf(WordSet::SiteClass)), Place::End],
            Statement::Symmetry => &[
                Place::One(Class::OneOf(WordSet::Symmetry)),
                Place::More(Class::OneOf(WordSet::Symmetry)),
                Place::End,
            ],
            Statement::Size => &[
                Place::One(Class::Number),
                Place::Key(Class::Word(Keyword::By)),
                Place::One(Class::Number),
                Place::End,
            ],
            Statement::MacroClass => &[
                Place::One(Class::OneOf(WordSet::Any)),
                Place::More(Class::OneOf(WordSet::Any)),
                Place::End,
            ],
            Statement::Foreign => &[
                Place::One(Class::OneOf(WordSet::Any)),
                Place::More(Class::OneOf(WordSet::Any)),
                Place::End,
            ],
            Statement::Origin => &[
                Place::One(Class::Number),
                Place::One(Class::Number),
                Place::End,
            ],
            Statement::MacroSite => &[Place::One(Class::Name), Place::Through],
            Statement::Pin => &[Place::One(Class::Name)],
            Statement::Obs => &[],
            Statement::PinDirection => &[
                Place::Group(Class::Word(Keyword::Output), 2),
                Place::Maybe(Class::Word(Keyword::Tristate)),
                Place::End,
                Place::One(Class::OneOf(WordSet::PinDirection)),
                Place::End,
            ],
            Statement::PinUse => &[Place::One(Class::OneOf(WordSet::PinUse)), Place::End],
            Statement::Port => &[],
            Statement::EndAlone => &[],
            Statement::End => &[Place::One(Class::Every)],
        }
    }
}
