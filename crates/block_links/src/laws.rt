// Laws of blocks that lie in cells. Each is the contract of a function that does nothing.

ghost use Rattle.std.specs.Prelude.{◌≡◌};
ghost use Rattle.block_cells.specs.Cells.{Cells};
ghost use Rattle.block_links.specs.Standing.{StandsFor, block_of};
ghost use Rattle.block_store.specs.Block.{Block};

/// Cells that stand for a block stand for the one that is read off them, and for no other. It does nothing.
pub fn cells_stand_for_one_block()
    ensures { (cells : Cells) (block : Block) → StandsFor cells block → block_of cells ≡ block }
{}
