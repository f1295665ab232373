ghost use Rattle.std.specs.Prelude.{List, ℕ};
ghost use Rattle.library.specs.declared.master.Master.{Master};
ghost use Rattle.tech.specs.Technology.{Technology};
ghost use Rattle.block_store.specs.Block.{Block};
ghost use Rattle.block_tables.specs.Laws.{FaultsAreUnsound, SoundByParts};

/// What soundness of a block and the rules for its parts say of each other. It does nothing.
pub fn soundness_by_parts()
    ensures parts { (tech : Technology) (library : List Master) (cap : ℕ) (b : Block) → SoundByParts tech library cap b }
    ensures faults { (tech : Technology) (library : List Master) (cap : ℕ) (b : Block) → FaultsAreUnsound tech library cap b }
{}
