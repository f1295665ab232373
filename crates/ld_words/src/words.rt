ghost use Rattle.std.specs.Prelude.{◌≡◌, ◌<◌, ◌≤◌, [], None, Some, Err, Ok, false, true, IfErr, IfOk, IsErrOf, IsTrue, OnErr, OnOk, OnSome, length};
ghost use Rattle.std.specs.Option.{option_map};
ghost use Rattle.std.specs.Result.{result_err};
ghost use Rattle.odb_outside.specs.Outside.{Rose};
ghost use Rattle.ld_words.specs.Cause.{UnlessReadFault, is_read_fault};

use crate::input::Input;
use crate::scan::Span;
use crate::window::Window;
use crate::word::{Word, WordFault};
use odb_base::Text;
use odb_outside::Source;
use std::alloc::{AllocError, Global};

/// The memory in which a text is read, taken before its source is at hand.
#[derive(Drop)]
pub struct Room {
    window: Window,
    ghost empty: { window ≡ [] },
}

impl Room {
    /// Room for one text.
    pub fn new(alloc: Global) -> Result<Room, AllocError> {
        Ok(Room {
            window: Window::new(alloc)?,
        })
    }
}

/// The words of a text, read from a source one after the other.
#[derive(Drop)]
pub struct Words<S: Source + Drop> {
    input: Input<S>,
    // The word at hand, which is used up when the next one is looked for.
    at_hand: Span,
    alloc: Global,
    fault: Option<WordFault>,
    ghost within: { at_hand.bytes ≤ length input.window },
    ghost lines: { at_hand.lines ≤ at_hand.bytes },
    ghost ready: { is_read_fault fault ≡ false → IsTrue (S.ready input.source) },
}

impl<S: Source + Drop> Words<S> {
    ghost use Rattle.ld_words.specs.Reading.{words_of};
    ghost use Rattle.ld_words.specs.Words.{GivesWord, LendsWord, fault_of, line_of, reading_left, room_of, source_of, word_of};

    /// Stands before the first word of the bytes that the source has left, on line 1. For want of memory the source is
    /// dropped; [`Words::in_room`] wants none.
    pub fn new(alloc: Global, source: S) -> Result<Words<S>, AllocError>
        requires { IsTrue (S.ready source) }
        ensures words { IfOk result
            (λ words. reading_left words ≡ option_map words_of (S.left source)) }
        ensures line { IfOk result (λ words. line_of words ≡ 1) }
        ensures fault { IfOk result (λ words. fault_of words ≡ None) }
        ensures source { IfOk result (λ words. source_of words ≡ source) }
    {
        let room = Room::new(alloc)?;
        Ok(Words::in_room(alloc, room, source))
    }

    /// The same in memory that was taken before.
    pub fn in_room(alloc: Global, room: Room, source: S) -> Words<S>
        requires { IsTrue (S.ready source) }
        ensures words { reading_left result ≡ option_map words_of (S.left source) }
        ensures line { line_of result ≡ 1 }
        ensures fault { fault_of result ≡ None }
        ensures source { source_of result ≡ source }
    {
        let Room { window } = room;
        Words {
            input: Input {
                source,
                window,
                line: 1,
                taken: 0,
            },
            at_hand: Span::NONE,
            alloc,
            fault: None,
        }
    }

    /// Goes on to the next word, which [`Words::word`] then lends, and answers whether there is one. A fault is
    /// answered from then on.
    pub fn advance(&mut self) -> Result<bool, WordFault>
        ensures words { LendsWord (reading_left self.old) (reading_left self.new) (word_of self.new) (line_of self.new) result }
        ensures falls { result ≡ Ok true → room_of self.new < room_of self.old }

        // The fault that was answered is kept, and nothing changes after it.
        ensures fault { fault_of self.new ≡ result_err result }
        ensures kept { (f : WordFault) → fault_of self.old ≡ Some f
            → (result ≡ Err f) × (self.new ≡ self.old) }

        // A read fails only where the source counted a fault.
        ensures failed { IsErrOf result WordFault.ReadFault → fault_of self.old ≡ None
            → Rose (S.faults (source_of self.old)) (S.faults (source_of self.new)) }
        ensures later { S.faults (source_of self.old) ≤ S.faults (source_of self.new) }
        ensures ready { UnlessReadFault result (IsTrue (S.ready (source_of self.new))) }
        ensures rest { S.rest (source_of self.new) ≡ S.rest (source_of self.old) }
    {
        if let Some(fault) = self.fault {
            return Err(fault);
        }
        let used = self.at_hand;
        self.at_hand = Span::NONE;
        self.input.advance(used);
        match self.input.find() {
            Ok(Some(span)) => {
                self.at_hand = span;
                Ok(true)
            }
            Ok(None) => Ok(false),
            Err(fault) => {
                self.fault = Some(fault);
                Err(fault)
            }
        }
    }

    /// The bytes of the word at hand, if there is one; else none.
    pub fn word(&self) -> &[u8]
        ensures { result.now ≡ (word_of self.now).bytes }
    {
        &self.input.window.bytes()[..self.at_hand.bytes]
    }

    /// The line, from 1, on which the word at hand begins.
    pub fn word_line(&self) -> u64
        ensures { result ≡ (word_of self.now).line }
    {
        self.input.line
    }

    /// The next word, or `None` at the end of the text. A fault is answered from then on.
    pub fn next(&mut self) -> Result<Option<Word>, WordFault>
        ensures words { GivesWord (reading_left self.old) (reading_left self.new) (line_of self.new) result }
        ensures falls { IfOk result (λ o. OnSome o (room_of self.new < room_of self.old)) }

        // The fault that was answered is kept, and nothing changes after it.
        ensures fault { fault_of self.new ≡ result_err result }
        ensures kept { (f : WordFault) → fault_of self.old ≡ Some f
            → (result ≡ Err f) × (self.new ≡ self.old) }

        // A read fails only where the source counted a fault.
        ensures failed { IsErrOf result WordFault.ReadFault → fault_of self.old ≡ None
            → Rose (S.faults (source_of self.old)) (S.faults (source_of self.new)) }
        ensures later { S.faults (source_of self.old) ≤ S.faults (source_of self.new) }
        ensures ready { UnlessReadFault result (IsTrue (S.ready (source_of self.new))) }
        ensures rest { S.rest (source_of self.new) ≡ S.rest (source_of self.old) }
    {
        match self.advance() {
            Ok(true) => self.owned(),
            Ok(false) => Ok(None),
            Err(fault) => Err(fault),
        }
    }

    /// The word at hand in its own memory. Want of it is a fault that is kept.
    fn owned(&mut self) -> Result<Option<Word>, WordFault>
        requires { fault_of self.old ≡ None }
        ensures word { IfOk result (λ word. word ≡ Some (word_of self.old)) }
        ensures same { OnOk result (self.new ≡ self.old) }
        ensures memory { IfErr result (λ fault. fault ≡ WordFault.Memory) }
        ensures kept { OnErr result (fault_of self.new ≡ Some WordFault.Memory) }
        ensures source { source_of self.new ≡ source_of self.old }
    {
        let line = self.word_line();
        match Text::new(self.alloc, self.word()) {
            Ok(bytes) => Ok(Some(Word { bytes, line })),
            Err(AllocError) => {
                self.fault = Some(WordFault::Memory);
                Err(WordFault::Memory)
            }
        }
    }

    /// The line, from 1, on which the reading stands. After `next` answered `None`, the text ends on it.
    pub fn line(&self) -> u64
        ensures { result ≡ line_of self.now }
    {
        self.input.line + self.at_hand.lines as u64
    }

    /// The source as it stands. It is ready unless `next` answered that a read failed.
    pub fn into_source(self) -> S
        ensures source { result ≡ source_of self }
        ensures ready { is_read_fault (fault_of self) ≡ false → IsTrue (S.ready result) }
    {
        let Words {
            input,
            at_hand: _,
            alloc: _,
            fault: _,
        } = self;
        let Input {
            source,
            window: _,
            line: _,
            taken: _,
        } = input;
        source
    }
}
