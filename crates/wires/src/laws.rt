ghost use Rattle.wires.specs.Laws.{AcceptedCodesAreDecoded, CodesAreReadBack, CodesHaveOneSpelling, ElementsTellPaths, WordsTakeRoom};

/// The code of lawful paths is read as their elements. It does nothing.
pub fn codes_are_read_back()
    ensures { CodesAreReadBack }
{}

/// A code that is read as the elements of paths is the code of these, and they are lawful: no paths have a second
/// code. It does nothing.
pub fn codes_have_one_spelling()
    ensures spelling { CodesHaveOneSpelling }
    ensures elements { ElementsTellPaths }
{}

/// Paths whose code is accepted are lawful, and are what is decoded. It does nothing.
pub fn accepted_codes_are_decoded()
    ensures { AcceptedCodesAreDecoded }
{}

/// Paths that a [`PathReader`](crate::PathReader) has read take from its room, which is 1,000,000 bytes, what their
/// words take, each point written whole and with one space between the words. It does nothing.
pub fn words_take_room()
    ensures { WordsTakeRoom }
{}
