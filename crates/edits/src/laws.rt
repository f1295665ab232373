ghost use Rattle.std.specs.Prelude.{List, ℕ};
ghost use Rattle.edit_words.specs.declared.edit.Edit.{Edit};
ghost use Rattle.library.specs.declared.master.Master.{Master};
ghost use Rattle.tech.specs.Technology.{Technology};
ghost use Rattle.block_store.specs.Block.{Block};
ghost use Rattle.block_store.specs.Sound.{IsSound};
ghost use Rattle.edits.specs.Refusals.{FirstIsPlanned, PlansUnrefused, RefusesFirst};

/// Of the refusals that apply to an edit its plan has the one of the least number and, within a number, of the least
/// place in the line; and it has steps only where none applies. So for every block, sound or not. For a sound one no
/// other refusal has that number and that place. It does nothing.
pub fn refusals_are_least()
    ensures refused { (tech : Technology) (library : List Master) (cap : ℕ) (b : Block) (e : Edit) → RefusesFirst tech library cap b e }
    ensures planned { (tech : Technology) (library : List Master) (cap : ℕ) (b : Block) (e : Edit) → PlansUnrefused tech library cap b e }
    ensures exact { (tech : Technology) (library : List Master) (cap : ℕ) (b : Block) (e : Edit) → IsSound tech library cap b → FirstIsPlanned tech library cap b e }
{}
