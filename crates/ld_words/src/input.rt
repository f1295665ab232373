ghost use Rattle.std.specs.Prelude.{◌≡◌, ◌+◌, ◌<◌, ◌≤◌, ◌↔◌, ◌==◌, ◌&&◌, [], false, true, if◌then◌else◌, IsTrue, IfErr, IfOk, IfSome, OnOk, OnSome, Some, length, nat_le, not, slice_get, take};

use crate::scan::{
    Span, blanks_in, first_blank, first_line_feed, first_quote, is_blank_byte, line_feeds_in,
};
use crate::window::Window;
use crate::word::{TEXT_LIMIT, WORD_LIMIT, WordFault};
use odb_outside::Source;

/// What a read behind the bytes at hand gave.
pub enum Fill {
    /// More bytes are at hand.
    More,
    /// The bytes at hand are the last ones.
    End,
    /// This byte, which is one more than a text may have. It isn't among those at hand.
    Past(u8),
}

/// A text that is read, and where the reading stands in it.
#[derive(Drop)]
pub struct Input<S> {
    pub source: S,
    /// The bytes that were read and are not used yet.
    pub window: Window,
    /// The line, from 1, of the first byte at hand.
    pub line: u64,
    /// The number of bytes that are used.
    pub taken: u64,
    ghost within: { taken + length window ≤ 4294967295 },
    ghost lines: { line ≤ taken + 1 },
}

impl<S: Source> Input<S> {
    ghost use Rattle.odb_outside.specs.Outside.{HasCause};
    ghost use Rattle.ld_words.specs.Cause.{HasReadCause, UnlessReadFault};
    ghost use Rattle.ld_words.specs.Input.{BeginsComment, BeginsPlain, BeginsQuoted, ComesTo, Fills, Finds, GoesOn, HasWord, Moved, Stays, reading_at};
    ghost use Rattle.ld_words.specs.Reading.{Between, Comment, is_blank, line_feeds};
    ghost use Rattle.ld_words.specs.Told.{SameIfTold, ShowsFault};

    /// Uses up the first bytes at hand.
    pub fn advance(&mut self, span: Span)
        requires bytes { span.bytes ≤ length self.old.window }
        requires lines { span.lines ≤ span.bytes }
        ensures { Moved self.old self.new span.bytes span.lines }
    {
        self.window.skip(span.bytes);
        self.line += span.lines as u64;
        self.taken += span.bytes as u64;
    }

    /// Reads behind the bytes at hand.
    fn fill(&mut self) -> Result<Fill, WordFault>
        requires ready { IsTrue (S.ready self.old.source) }
        requires room { length self.old.window ≤ 65535 }
        ensures fills { IfOk result (Fills S.left self.old self.new) }
        ensures fault { IfErr result (λ f. f ≡ WordFault.ReadFault) }
        ensures stays { Stays self.old self.new }
        ensures ready { UnlessReadFault result (IsTrue (S.ready self.new.source)) }
        ensures cause { HasReadCause (S.faults self.old.source) (S.faults self.new.source) result }
        ensures rest { S.rest self.new.source ≡ S.rest self.old.source }
    {
        let most = TEXT_LIMIT - self.taken - self.window.bytes().len() as u64;
        if most == 0 {
            return self.look_past();
        }
        match self.window.fill(&mut self.source, most as usize) {
            Ok(0) => Ok(Fill::End),
            Ok(_) => Ok(Fill::More),
            Err(_) => Err(WordFault::ReadFault),
        }
    }

    /// Looks for one byte more than a text may have.
    fn look_past(&mut self) -> Result<Fill, WordFault>
        requires ready { IsTrue (S.ready self.old.source) }
        requires full { self.old.taken + length self.old.window ≡ 4294967295 }
        ensures fills { IfOk result (Fills S.left self.old self.new) }
        ensures fault { IfErr result (λ f. f ≡ WordFault.ReadFault) }
        ensures stays { Stays self.old self.new }
        ensures ready { UnlessReadFault result (IsTrue (S.ready self.new.source)) }
        ensures cause { HasReadCause (S.faults self.old.source) (S.faults self.new.source) result }
        ensures rest { S.rest self.new.source ≡ S.rest self.old.source }
    {
        let mut byte = [0];
        match self.source.read(&mut byte) {
            Ok(0) => Ok(Fill::End),
            Ok(_) => Ok(Fill::Past(byte[0])),
            Err(_) => Err(WordFault::ReadFault),
        }
    }

    fn first(&self) -> Option<u8>
        ensures { result ≡ slice_get self.now.window 0 }
    {
        self.window.bytes().first().copied()
    }

    /// Uses up the first bytes at hand, none of which ends a line.
    fn pass(&mut self, bytes: usize)
        requires { bytes ≤ length self.old.window }
        ensures { Moved self.old self.new bytes 0 }
    {
        self.advance(Span { bytes, lines: 0 });
    }

    /// Uses up the blanks at the front of the bytes at hand.
    fn pass_blanks(&mut self)
        ensures reading { reading_at S.left Between self.new ≡ reading_at S.left Between self.old }
        ensures stops { IfSome (slice_get self.new.window 0) (λ b. is_blank b ≡ false) }
        ensures taken { self.old.taken ≤ self.new.taken }
        ensures at_hand { self.old.taken + length self.old.window
            ≤ self.new.taken + length self.new.window }
        ensures source { self.new.source ≡ self.old.source }
    {
        let blanks = blanks_in(self.window.bytes());
        self.advance(blanks);
    }

    /// Whether there are more bytes, which are then at hand.
    fn more(&mut self) -> Result<bool, WordFault>
        requires ready { IsTrue (S.ready self.old.source) }
        requires empty { self.old.window ≡ [] }
        ensures goes { IfOk result (GoesOn S.left self.old self.new) }
        ensures fault { IfErr result (ShowsFault (reading_at S.left Between self.old)) }
        ensures comment { IfErr result (ShowsFault (reading_at S.left Comment self.old)) }
        ensures stays { Stays self.old self.new }
        ensures ready { UnlessReadFault result (IsTrue (S.ready self.new.source)) }
        ensures cause { HasReadCause (S.faults self.old.source) (S.faults self.new.source) result }
        ensures rest { S.rest self.new.source ≡ S.rest self.old.source }
    {
        match self.fill()? {
            Fill::More => Ok(true),
            Fill::End => Ok(false),
            Fill::Past(_) => Err(WordFault::TooLong { line: self.line }),
        }
    }

    /// Uses up the comment that begins at the first byte at hand, to the end of its line.
    fn pass_comment(&mut self) -> Result<(), WordFault>
        requires ready { IsTrue (S.ready self.old.source) }
        requires begins { BeginsComment self.old.window }
        ensures reading { OnOk result
            (SameIfTold (reading_at S.left Between self.old) (reading_at S.left Between self.new)) }
        ensures fault { IfErr result (ShowsFault (reading_at S.left Between self.old)) }
        ensures taken { self.old.taken < self.new.taken }
        ensures at_hand { self.old.taken + length self.old.window
            ≤ self.new.taken + length self.new.window }
        ensures ready { UnlessReadFault result (IsTrue (S.ready self.new.source)) }
        ensures cause { HasReadCause (S.faults self.old.source) (S.faults self.new.source) result }
        ensures rest { S.rest self.new.source ≡ S.rest self.old.source }
    {
        self.pass(1);
        'comment: loop {
            let bytes = self.window.bytes();
            let held = bytes.len();
            if let Some(count) = first_line_feed(bytes) {
                self.pass(count);
                return Ok(());
            }
            self.pass(held);
            if !self.more()? {
                return Ok(());
            }
        }
    }

    /// Uses up blanks and comments, to the first byte of a word, which it answers, or to the end of the text.
    fn first_of_word(&mut self) -> Result<Option<u8>, WordFault>
        requires ready { IsTrue (S.ready self.old.source) }
        ensures comes { IfOk result (ComesTo S.left self.old self.new) }
        ensures fault { IfErr result (ShowsFault (reading_at S.left Between self.old)) }
        ensures taken { self.old.taken ≤ self.new.taken }
        ensures ready { UnlessReadFault result (IsTrue (S.ready self.new.source)) }
        ensures cause { HasReadCause (S.faults self.old.source) (S.faults self.new.source) result }
        ensures rest { S.rest self.new.source ≡ S.rest self.old.source }
    {
        'seeking: loop {
            self.pass_blanks();
            match self.first() {
                Some(b'#') => self.pass_comment()?,
                Some(first) => return Ok(Some(first)),
                None => {
                    if !self.more()? {
                        return Ok(None);
                    }
                }
            }
        }
    }

    /// The length of the plain word that begins at the first byte at hand, all of it at hand.
    fn plain_length(&mut self) -> Result<usize, WordFault>
        requires ready { IsTrue (S.ready self.old.source) }
        requires begins { BeginsPlain self.old.window }
        ensures word { IfOk result (λ n. HasWord S.left self.old self.new n 0) }
        ensures fault { IfErr result (ShowsFault (reading_at S.left Between self.old)) }
        ensures stays { Stays self.old self.new }
        ensures ready { UnlessReadFault result (IsTrue (S.ready self.new.source)) }
        ensures cause { HasReadCause (S.faults self.old.source) (S.faults self.new.source) result }
        ensures rest { S.rest self.new.source ≡ S.rest self.old.source }
    {
        let mut seen = 0;
        'plain: loop {
            let bytes = self.window.bytes();
            let held = bytes.len();
            if let Some(more) = first_blank(&bytes[seen..]) {
                return self.fitting(seen + more);
            }
            if held > WORD_LIMIT {
                return Err(WordFault::LongWord { line: self.line });
            }
            seen = held;
            match self.fill()? {
                Fill::More => {}
                Fill::End => return Ok(held),
                Fill::Past(byte) => return Err(self.past_plain(byte)),
            }
        }
    }

    /// The length of a word, unless it is too long.
    fn fitting(&self, length: usize) -> Result<usize, WordFault>
        ensures { result ≡ (if nat_le length 65535 then Ok length
            else Err (WordFault.LongWord self.now.line)) }
    {
        if length <= WORD_LIMIT {
            Ok(length)
        } else {
            Err(WordFault::LongWord { line: self.line })
        }
    }

    /// What is wrong where this byte, one too many for a text, comes after a plain word at hand.
    fn past_plain(&self, byte: u8) -> WordFault
        ensures { result ≡ (if not (is_blank byte) && length self.now.window == 65535
            then WordFault.LongWord self.now.line else WordFault.TooLong self.now.line) }
    {
        if !is_blank_byte(byte) && self.window.bytes().len() == WORD_LIMIT {
            WordFault::LongWord { line: self.line }
        } else {
            WordFault::TooLong { line: self.line }
        }
    }

    /// The length of the quoted word that begins at the first byte at hand, all of it at hand.
    fn quoted_length(&mut self) -> Result<usize, WordFault>
        requires ready { IsTrue (S.ready self.old.source) }
        requires begins { BeginsQuoted self.old.window }
        ensures word { IfOk result
            (λ n. HasWord S.left self.old self.new n (line_feeds (take n self.new.window))) }
        ensures fault { IfErr result (ShowsFault (reading_at S.left Between self.old)) }
        ensures stays { Stays self.old self.new }
        ensures ready { UnlessReadFault result (IsTrue (S.ready self.new.source)) }
        ensures cause { HasReadCause (S.faults self.old.source) (S.faults self.new.source) result }
        ensures rest { S.rest self.new.source ≡ S.rest self.old.source }
    {
        let mut seen = 0;
        'quoted: loop {
            let bytes = self.window.bytes();
            let held = bytes.len();
            if let Some(more) = first_quote(&bytes[1 + seen..]) {
                return self.fitting(1 + seen + more + 1);
            }
            if held > WORD_LIMIT {
                return Err(WordFault::LongWord { line: self.line });
            }
            seen = held - 1;
            match self.fill()? {
                Fill::More => {}
                Fill::End => return Err(WordFault::OpenQuote { line: self.line }),
                Fill::Past(_) => return Err(self.past_quoted()),
            }
        }
    }

    /// What is wrong where one byte too many for a text comes after the quoted bytes at hand.
    fn past_quoted(&self) -> WordFault
        ensures { result ≡ (if length self.now.window == 65535 then WordFault.LongWord self.now.line
            else WordFault.TooLong (self.now.line + line_feeds self.now.window)) }
    {
        let bytes = self.window.bytes();
        if bytes.len() == WORD_LIMIT {
            WordFault::LongWord { line: self.line }
        } else {
            WordFault::TooLong {
                line: self.line + line_feeds_in(bytes) as u64,
            }
        }
    }

    /// The next word, which is then at hand, or none at the end of the text.
    pub fn find(&mut self) -> Result<Option<Span>, WordFault>
        requires ready { IsTrue (S.ready self.old.source) }
        ensures word { IfOk result (Finds S.left self.old self.new) }
        ensures fault { IfErr result (ShowsFault (reading_at S.left Between self.old)) }
        ensures taken { self.old.taken ≤ self.new.taken }
        ensures ready { UnlessReadFault result (IsTrue (S.ready self.new.source)) }
        ensures cause { HasReadCause (S.faults self.old.source) (S.faults self.new.source) result }
        ensures rest { S.rest self.new.source ≡ S.rest self.old.source }
    {
        match self.first_of_word()? {
            None => Ok(None),
            Some(b'"') => {
                let bytes = self.quoted_length()?;
                let lines = line_feeds_in(&self.window.bytes()[..bytes]);
                Ok(Some(Span { bytes, lines }))
            }
            Some(_) => {
                let bytes = self.plain_length()?;
                Ok(Some(Span { bytes, lines: 0 }))
            }
        }
    }
}
