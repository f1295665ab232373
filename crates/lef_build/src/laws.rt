//! Laws about the parts of LEF texts. Each is a statement that the contract of a call with an empty body proves; no
//! call does anything.

ghost use Rattle.std.specs.Prelude.{List};
ghost use Rattle.library.specs.declared.master.Master.{Master};
ghost use Rattle.tech.specs.Technology.{Technology};
ghost use Rattle.lef_build.specs.Building.{Build};
ghost use Rattle.lef_build.specs.Laws.{ItemsAreEntered, MacrosHaveSites, NoItemsHaveNoParts, SecondLayersAreLeftOut, SecondMacrosAreLeftOut, SecondSitesAreLeftOut, SecondViasAreLeftOut, ViasAreOnLayers};

/// A text without items has no parts, and a second item of a name changes nothing but the count.
pub fn what_is_left_out()
    ensures none { (t : Technology) (library : List Master) → NoItemsHaveNoParts t library }
    ensures layers { (b : Build) → SecondLayersAreLeftOut b }
    ensures vias { (b : Build) → SecondViasAreLeftOut b }
    ensures sites { (b : Build) → SecondSitesAreLeftOut b }
    ensures macros { (b : Build) → SecondMacrosAreLeftOut b }
{}

/// The identifiers in the parts are those that the technology gives once the parts before are entered.
pub fn what_parts_name()
    ensures entered { (t : Technology) (library : List Master) → ItemsAreEntered t library }
    ensures layers { (b : Build) → ViasAreOnLayers b }
    ensures sites { (b : Build) → MacrosHaveSites b }
{}
