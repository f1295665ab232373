ghost use Rattle.steps_net.specs.Laws.{SwapsKeepNames};

/// A terminal of an instance that gets another master keeps its name: it stands at the place of that name in the new
/// master. It does nothing.
pub fn swaps_keep_names()
    ensures { SwapsKeepNames }
{}
