ghost use Rattle.odb_base.specs.declared.codes.kind.Kind.{Kind};
ghost use Rattle.block_store.specs.Block.{Block};
ghost use Rattle.block_store.specs.NameLaws.{FoundHaveTheName, FreeNamesAreNotFound, NamedAreFound};

/// What finding by a name and the names of objects say of each other, in every block. It does nothing.
#[tactic(auto, using(crate::proofs::Naming::free_names_are_not_found, crate::proofs::Naming::found_have_the_name, crate::proofs::Naming::named_are_found))]
pub fn names_and_finding()
    ensures free { (k : Kind) (b : Block) → FreeNamesAreNotFound k b }
    ensures found { (k : Kind) (b : Block) → FoundHaveTheName k b }
    ensures named { (k : Kind) (b : Block) → NamedAreFound k b }
{}
