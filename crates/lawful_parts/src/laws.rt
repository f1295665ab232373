//! Laws about lawful parts. Each is a statement that the contract of a call with an empty body proves; no call does
//! anything.

ghost use Rattle.std.specs.Prelude.{List};
ghost use Rattle.library.specs.declared.master.Master.{Master};
ghost use Rattle.tech.specs.Technology.{Technology};
ghost use Rattle.lawful_parts.specs.Laws.{EnteringKeepsLibraries, GrowingKeepsLibraries, LayersKeepLawful, SitesKeepLawful, UnitsKeepLawful, ViasKeepLawful};

/// What stays lawful where a technology grows, and where a library does.
pub fn growing_keeps_lawful()
    ensures units { (t : Technology) → UnitsKeepLawful t }
    ensures layers { (t : Technology) → LayersKeepLawful t }
    ensures vias { (t : Technology) → ViasKeepLawful t }
    ensures sites { (t : Technology) → SitesKeepLawful t }
    ensures libraries { (t u : Technology) → GrowingKeepsLibraries t u }
    ensures masters { (t : Technology) (library : List Master) → EnteringKeepsLibraries t library }
{}
