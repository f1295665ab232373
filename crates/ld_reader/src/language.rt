ghost use Rattle.std.specs.Prelude.{◌≡◌};
ghost use Rattle.ld_reader.specs.Rules.{Gives, Rules};

use crate::fault::Stop;
use ld_forms::{Extent, Judged, Kept, Place};
use std::alloc::Global;

/// What a first word begins.
#[derive(Clone, Copy, Debug, PartialEq, Eq)]
pub enum Begun<C, S, K> {
    /// This statement.
    Taken(S),
    /// This statement, in whose places the word itself stands.
    Within(S),
    /// A part that is passed over.
    Passed(Extent<C>),
    /// Nothing, which is this fault.
    Bad(K),
}

/// A language of statements, and what was read of a text in it so far.
pub trait Language: Drop {
    /// A class of words.
    type Class: Copy + 'static;
    /// A statement that is taken.
    type Statement: Copy + 'static;
    /// What may be wrong with a word.
    type Kind: Copy + 'static;

    ghost rules: { Rules Self Self.Class Self.Statement Self.Kind };

    /// What a word is to a class.
    fn judge(class: Self::Class, word: &[u8]) -> Judged<Self::Kind>
        ensures { result ≡ rules.judged class word.now };

    /// The places of a statement behind its first word.
    fn places(statement: Self::Statement) -> &'static [Place<Self::Class>]
        ensures { result.now ≡ rules.places statement };

    /// What a word begins.
    fn begun(&self, word: &[u8]) -> Begun<Self::Class, Self::Statement, Self::Kind>
        ensures { result ≡ rules.begun self.now word.now };

    /// Sets what a statement sets by the words of it that are kept.
    fn set(
        &mut self,
        alloc: Global,
        statement: Self::Statement,
        kept: &Kept,
    ) -> Result<(), Stop<Self::Kind>>
        ensures { Gives (rules.set self.old statement kept.now) self.new result };

    /// Counts one part that is passed over.
    fn count(&mut self)
        ensures { self.new ≡ rules.counted self.old };

    /// Whether a word that its place doesn't take is a fault, whatever is due.
    fn is_strict(&self) -> bool
        ensures { result ≡ rules.is_strict self.now };

    /// Whether no more word is due.
    fn is_done(&self) -> bool
        ensures { result ≡ rules.is_done self.now };

    /// Whether the text may end between statements.
    fn may_end(&self) -> bool
        ensures { result ≡ rules.may_end self.now };

    /// The fault of a word that can't stand where it does.
    fn unexpected() -> Self::Kind
        ensures { result ≡ rules.unexpected };

    /// The fault of a text that ends too early.
    fn cut() -> Self::Kind
        ensures { result ≡ rules.cut };
}
