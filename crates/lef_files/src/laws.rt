//! A law of the definition.

ghost use Rattle.lef_files.specs.Texts.{TextsHaveOutcomes};

/// Each text holds a tree or has a fault of its own: none is a failed read or want of memory.
pub fn texts_have_outcomes()
    ensures { TextsHaveOutcomes }
{}
