ghost use Rattle.std.specs.Prelude.{◌≡◌};
ghost use Rattle.lef_forms.specs.Keywords.{is, text_of};

/// A word that stands for itself in LEF (LEF/DEF 5.8 Language Reference, LEF Syntax).
#[derive(Clone, Copy, Debug, PartialEq, Eq)]
pub enum Keyword {
    Units,
    Layer,
    Via,
    Site,
    Macro,
    End,
    Library,
    PropertyDefinitions,
    Spacing,
    ViaRule,
    NonDefaultRule,
    Array,
    BeginExt,
    EndExt,
    Database,
    Microns,
    Type,
    Direction,
    Pitch,
    Width,
    AcCurrentDensity,
    DcCurrentDensity,
    Frequency,
    CutArea,
    TableEntries,
    Default,
    Generated,
    TopOfStackOnly,
    Rect,
    Mask,
    Class,
    Symmetry,
    Size,
    By,
    Foreign,
    Origin,
    Pin,
    Obs,
    Density,
    Timing,
    Output,
    Tristate,
    Use,
    Port,
}

impl Keyword {
    /// The word, in upper case.
    pub fn text(self) -> &'static [u8]
        ensures { result.now ≡ text_of self }
    {
        match self {
            Keyword::Units => b"UNITS",
            Keyword::Layer => b"LAYER",
            Keyword::Via => b"VIA",
            Keyword::Site => b"SITE",
            Keyword::Macro => b"MACRO",
            Keyword::End => b"END",
            Keyword::Library => b"LIBRARY",
            Keyword::PropertyDefinitions => b"PROPERTYDEFINITIONS",
            Keyword::Spacing => b"SPACING",
            Keyword::ViaRule => b"VIARULE",
            Keyword::NonDefaultRule => b"NONDEFAULTRULE",
            Keyword::Array => b"ARRAY",
            Keyword::BeginExt => b"BEGINEXT",
            Keyword::EndExt => b"ENDEXT",
            Keyword::Database => b"DATABASE",
            Keyword::Microns => b"MICRONS",
            Keyword::Type => b"TYPE",
            Keyword::Direction => b"DIRECTION",
            Keyword::Pitch => b"PITCH",
            Keyword::Width => b"WIDTH",
            Keyword::AcCurrentDensity => b"ACCURRENTDENSITY",
            Keyword::DcCurrentDensity => b"DCCURRENTDENSITY",
            Keyword::Frequency => b"FREQUENCY",
            Keyword::CutArea => b"CUTAREA",
            Keyword::TableEntries => b"TABLEENTRIES",
            Keyword::Default => b"DEFAULT",
            Keyword::Generated => b"GENERATED",
            Keyword::TopOfStackOnly => b"TOPOFSTACKONLY",
            Keyword::Rect => b"RECT",
            Keyword::Mask => b"MASK",
            Keyword::Class => b"CLASS",
            Keyword::Symmetry => b"SYMMETRY",
            Keyword::Size => b"SIZE",
            Keyword::By => b"BY",
            Keyword::Foreign => b"FOREIGN",
            Keyword::Origin => b"ORIGIN",
            Keyword::Pin => b"PIN",
            Keyword::Obs => b"OBS",
            Keyword::Density => b"DENSITY",
            Keyword::Timing => b"TIMING",
            Keyword::Output => b"OUTPUT",
            Keyword::Tristate => b"TRISTATE",
            Keyword::Use => b"USE",
            Keyword::Port => b"PORT",
        }
    }

    /// Whether these bytes are the word.
    #[tactic(auto, unfolding(crate::specs::Keywords::is))]
    pub fn is(self, word: &[u8]) -> bool
        ensures { result ≡ is self word.now }
    {
        word == self.text()
    }
}
