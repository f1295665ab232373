// Laws of the grammar. Each is the contract of a function that does nothing.

ghost use Rattle.lef_reader.specs.Laws.{AnswersAreOne, LayerLinesAreRead, LayersAreRead, MacroLinesAreRead, MacrosAreRead, OrientationsNameNoVia, OthersArePassedOver, PartsArePassedOver, PinsAreRead, SiteLinesAreRead, SitesAreRead, TextsAreRead, ViasAreRead, WordsBehindAreLeft};
ghost use Rattle.lef_reader.specs.Reading.{rules};
ghost use Rattle.ld_reader.specs.Laws.{BadIsFault, FilledIsSet, LinesSayNothing, StrayIsPassedOver};

use crate::so_far::SoFar;
use ld_reader::{statements_are_read, words_are_read_in_order};

/// A text has one answer, and the lines of its words say nothing but where a fault is.
pub fn texts_have_one_answer()
    ensures one { AnswersAreOne }
    ensures lines { LinesSayNothing rules }
{
    words_are_read_in_order::<SoFar>();
}

/// The laws of statements hold of those of LEF.
pub fn lef_statements_are_read()
    ensures filled { FilledIsSet rules }
    ensures stray { StrayIsPassedOver rules }
    ensures bad { BadIsFault rules }
{
    statements_are_read::<SoFar>();
}

/// A statement of a layer changes what it says of the layer and nothing else, and a layer of any statements in
/// any order is read as that layer.
pub fn layers_are_read()
    ensures lines { LayerLinesAreRead }
    ensures layers { LayersAreRead }
{}

/// The like of sites.
pub fn sites_are_read()
    ensures lines { SiteLinesAreRead }
    ensures sites { SitesAreRead }
{}

/// A statement that begins with a word of no row is passed over: it changes nothing but the count. So does any
/// other part that is passed over, up to the word that ends it.
pub fn other_statements_are_passed_over()
    ensures statements { OthersArePassedOver }
    ensures parts { PartsArePassedOver }
{}

/// A via of any shapes, whatever words stand behind its name, is read as that via. The word of an orientation isn't
/// the name of a via.
pub fn vias_are_read()
    ensures vias { ViasAreRead }
    ensures orientations { OrientationsNameNoVia }
{}

/// A statement of a macro, or a section in it, changes what it says of the macro and nothing else, and a macro of
/// any statements in any order, with parts between them that are passed over, is read as that macro. A second pin of a name is left out and counted.
pub fn macros_are_read()
    ensures pins { PinsAreRead }
    ensures lines { MacroLinesAreRead }
    ensures macros { MacrosAreRead }
{}

/// A text of such sections in any order, with `END LIBRARY` and whatever behind them, has the tree that they say, and
/// what stands behind is left.
pub fn texts_are_read()
    ensures trees { TextsAreRead }
    ensures left { WordsBehindAreLeft }
{
    words_are_read_in_order::<SoFar>();
}
