ghost use Rattle.std.specs.Prelude.{◌≡◌, ◌<◌, ◌≤◌, ◌++◌, ◌∷◌, [], IfErr, IfOk, IfSome, IsErrOf, IsTrue, OnErr, OnOk, false, length};
ghost use Rattle.odb_outside.specs.Outside.{HasWriteCause};
ghost use Rattle.odb_outside.specs.Writing.{Grows, GrowsByPrefix, UnlessFailed};
ghost use Rattle.odb_outside.specs.Shelves.{files_told};
ghost use Rattle.odb_outside.specs.declared.shelf.Hand.{Hand as AnyHand};
ghost use Rattle.shelf_files.specs.Causes.{HasCause as HasFileCause};
ghost use Rattle.odb_run.specs.Machine.{start};
ghost use Rattle.odb_run.specs.Lines.{IsLineEnd, has_line_end, lines_of};

use crate::answers::answer_line;
use crate::session::Session;
use crate::stop::Stop;
use memchr::memchr;
use odb_base::Steps;
use odb_outside::{Hand, Shelf, Sink, WriteFault, write_all};
use shelf_files::FileFault;
use std::alloc::{AllocError, Global};
use std::marker::Model;
use std::sync::ledger::Ledger;

/// How many bytes of the script are read at once, and of how many replies are written at once.
pub const PIECE: usize = 16384;

/// The greatest number of bytes in a line.
pub const LINE_LIMIT: usize = 65_535;

/// A run between two pieces of its script.
#[derive(Drop)]
pub struct Run {
    session: Session,
    // The unfinished line.
    line: Vec<u8>,
    // The replies that are not written yet.
    unwritten: Vec<u8>,
    refused: bool,
}

impl Model for Run {
    ghost use Rattle.std.specs.Prelude.{◌≡◌, false};
    ghost use Rattle.odb_run.specs.Running.{Running};

    ghost Value = { Running };

    ghost use Rattle.odb_run.specs.Lines.{has_line_end};

    ghost view = { λ r. record { state = r.session; line = r.line.items; unwritten = r.unwritten.items; refused = r.refused } };

    ghost invariant = { λ r. has_line_end r.line.items ≡ false };
}

impl Run {
    ghost use Rattle.odb_run.specs.Running.{EndsLast, FailsAt, Finishes, Goes, HasCauses, HasStopCause, IsBetween, IsStopFor, Replied, Stops, StopsLast, WritesOn, first_run};

    /// A run that has taken nothing of its script, over the empty database, whose tables have at most `cap`
    /// slots each.
    pub fn new(alloc: Global, cap: u32) -> Result<Run, AllocError>
        requires { cap ≤ 16777215 }
        ensures { IfOk result (λ run. run ≡ first_run (start cap)) }
    {
        Ok(Run {
            session: Session::new(alloc, cap)?,
            line: Vec::new(alloc),
            unwritten: Vec::new(alloc),
            refused: false,
        })
    }

    /// Answers the unfinished line, where there is one, writes the replies, and says whether there was a
    /// refusal.
    pub fn finish<F: Shelf, K: Sink, L: Ledger>(
        &mut self,
        alloc: Global,
        shelf: &mut F,
        out: &mut K,
        moves: &mut Steps<L>,
    ) -> Result<bool, Stop>
        requires hand { F.hand shelf.old ≡ Hand.Nothing }
        requires ready { IsTrue (K.ready out.old) }
        ensures ok { IfOk result (λ refused. Finishes (K.held out.old) (K.held out.new) self.old (files_told (F.told shelf.old)) (files_told (F.told shelf.new)) refused) }
        ensures err { IfErr result (λ reason. StopsLast reason (K.held out.old) (K.held out.new) self.old (files_told (F.told shelf.old))) }
        ensures causes { HasCauses (K.faults out.old) (K.faults out.new) (F.faults shelf.old) (F.faults shelf.new) result }
    {
        if let Err(fault) = self.end_last_line(alloc, shelf, moves) {
            return Err(self.stop_at(fault, out));
        }
        self.write_out(out)?;
        Ok(self.refused)
    }

    // Answers the unfinished line, where there is one.
    fn end_last_line<F: Shelf, L: Ledger>(
        &mut self,
        alloc: Global,
        shelf: &mut F,
        moves: &mut Steps<L>,
    ) -> Result<(), FileFault>
        requires { F.hand shelf.old ≡ Hand.Nothing }
        ensures ok { OnOk result (EndsLast self.old (files_told (F.told shelf.old)) self.new (files_told (F.told shelf.new))) }
        ensures failed { IsErrOf result FileFault.Failed → FailsAt self.old.line self.old.unwritten self.new.unwritten }
        ensures last { IsErrOf result FileFault.Failed → lines_of self.old.line ≡ self.old.line ∷ [] }
        ensures cause { HasFileCause (F.faults shelf.old) (F.faults shelf.new) result }
    {
        if self.line.is_empty() {
            return Ok(());
        }
        self.end_unfinished_line(alloc, shelf, moves)
    }

    // Answers the line that ends with these bytes.
    fn end_line<F: Shelf, L: Ledger>(
        &mut self,
        alloc: Global,
        bytes: &[u8],
        shelf: &mut F,
        moves: &mut Steps<L>,
    ) -> Result<(), FileFault>
        requires line { has_line_end bytes.now ≡ false }
        requires hand { F.hand shelf.old ≡ Hand.Nothing }
        ensures ok { OnOk result (Replied self.old (files_told (F.told shelf.old)) (self.old.line ++ bytes.now) self.new (files_told (F.told shelf.new))) }
        ensures failed { IsErrOf result FileFault.Failed → FailsAt (self.old.line ++ bytes.now) self.old.unwritten self.new.unwritten }
        ensures whole { has_line_end self.old.line ≡ false }
        ensures hand { OnOk result (F.hand shelf.new ≡ Hand.Nothing) }
        ensures cause { HasFileCause (F.faults shelf.old) (F.faults shelf.new) result }
    {
        if self.line.is_empty() {
            return self.reply_to(alloc, bytes, shelf, moves);
        }
        self.line.extend_from_slice(bytes)?;
        self.end_unfinished_line(alloc, shelf, moves)
    }

    // Answers a line that has no bytes in the unfinished one.
    fn reply_to<F: Shelf, L: Ledger>(
        &mut self,
        alloc: Global,
        line: &[u8],
        shelf: &mut F,
        moves: &mut Steps<L>,
    ) -> Result<(), FileFault>
        requires line { self.old.line ≡ [] }
        requires hand { F.hand shelf.old ≡ Hand.Nothing }
        ensures ok { OnOk result (Replied self.old (files_told (F.told shelf.old)) line.now self.new (files_told (F.told shelf.new))) }
        ensures failed { IsErrOf result FileFault.Failed → FailsAt line.now self.old.unwritten self.new.unwritten }
        ensures hand { OnOk result (F.hand shelf.new ≡ Hand.Nothing) }
        ensures cause { HasFileCause (F.faults shelf.old) (F.faults shelf.new) result }
    {
        let session = &mut self.session;
        let refused = answer_line(alloc, session, line, shelf, &mut self.unwritten, moves)?;
        self.refused |= refused;
        Ok(())
    }

    // Answers the unfinished line, which ends here.
    fn end_unfinished_line<F: Shelf, L: Ledger>(
        &mut self,
        alloc: Global,
        shelf: &mut F,
        moves: &mut Steps<L>,
    ) -> Result<(), FileFault>
        requires { F.hand shelf.old ≡ Hand.Nothing }
        ensures ok { OnOk result (Replied self.old (files_told (F.told shelf.old)) self.old.line self.new (files_told (F.told shelf.new))) }
        ensures failed { IsErrOf result FileFault.Failed → FailsAt self.old.line self.old.unwritten self.new.unwritten }
        ensures whole { has_line_end self.old.line ≡ false }
        ensures hand { OnOk result (F.hand shelf.new ≡ Hand.Nothing) }
        ensures cause { HasFileCause (F.faults shelf.old) (F.faults shelf.new) result }
    {
        let session = &mut self.session;
        let refused = answer_line(
            alloc,
            session,
            &self.line,
            shelf,
            &mut self.unwritten,
            moves,
        )?;
        self.line.clear();
        self.refused |= refused;
        Ok(())
    }

    /// Takes a piece of the script. Each line that ends in it is answered, and the replies are written, up to a line at
    /// which a file fails.
    pub fn take_piece<F: Shelf, K: Sink, L: Ledger>(
        &mut self,
        alloc: Global,
        piece: &[u8],
        shelf: &mut F,
        out: &mut K,
        moves: &mut Steps<L>,
    ) -> Result<(), Stop>
        requires hand { F.hand shelf.old ≡ Hand.Nothing }
        requires ready { IsTrue (K.ready out.old) }
        ensures ok { OnOk result (Goes (K.held out.old) (K.held out.new) self.old (files_told (F.told shelf.old)) self.new (files_told (F.told shelf.new)) piece.now []) }
        ensures err { IfErr result (λ reason. Stops reason (K.held out.old) (K.held out.new) self.old (files_told (F.told shelf.old)) piece.now) }
        ensures between { OnOk result (IsBetween self.new) }
        ensures hand { OnOk result (F.hand shelf.new ≡ Hand.Nothing) }
        ensures ready { OnOk result (IsTrue (K.ready out.new)) }
        ensures causes { HasCauses (K.faults out.old) (K.faults out.new) (F.faults shelf.old) (F.faults shelf.new) result }
    {
        let mut rest = piece;
        'lines: while let Some(at) = line_end(rest) {
            let (line, behind) = rest.split_at(at);
            self.take_line(alloc, line, shelf, out, moves)?;
            rest = &behind[1..];
        }
        self.write_out(out)?;
        self.keep(rest)?;
        Ok(())
    }

    // Takes the bytes that end a line, without its LF. The replies are written where they have become many, and where a
    // file fails.
    fn take_line<F: Shelf, K: Sink, L: Ledger>(
        &mut self,
        alloc: Global,
        bytes: &[u8],
        shelf: &mut F,
        out: &mut K,
        moves: &mut Steps<L>,
    ) -> Result<(), Stop>
        requires line { has_line_end bytes.now ≡ false }
        requires hand { F.hand shelf.old ≡ Hand.Nothing }
        requires ready { IsTrue (K.ready out.old) }
        ensures ok { OnOk result (Goes (K.held out.old) (K.held out.new) self.old (files_told (F.told shelf.old)) self.new (files_told (F.told shelf.new)) (bytes.now ++ 10 ∷ []) []) }
        ensures err { IfErr result (λ reason. Stops reason (K.held out.old) (K.held out.new) self.old (files_told (F.told shelf.old)) (bytes.now ++ 10 ∷ [])) }
        ensures hand { OnOk result (F.hand shelf.new ≡ Hand.Nothing) }
        ensures ready { OnOk result (IsTrue (K.ready out.new)) }
        ensures causes { HasCauses (K.faults out.old) (K.faults out.new) (F.faults shelf.old) (F.faults shelf.new) result }
    {
        if let Err(fault) = self.end_line(alloc, bytes, shelf, moves) {
            return Err(self.stop_at(fault, out));
        }
        self.write_much(out)?;
        Ok(())
    }

    // Says what stops the run at a line that has no answer. Where a file failed, the replies to the lines before it are
    // due: they are written, and where that fails it is this that stops the run.
    fn stop_at<K: Sink>(&mut self, fault: FileFault, out: &mut K) -> Stop
        requires { IsTrue (K.ready out.old) }
        ensures stops { IsStopFor fault result (K.held out.old) (K.held out.new) self.old.unwritten }
        ensures file { result ≡ Stop.FileFault → fault ≡ FileFault.Failed }
        ensures cause { HasStopCause (K.faults out.old) (K.faults out.new) result }
    {
        match fault {
            FileFault::Memory => Stop::Memory,
            FileFault::Failed => match self.write_out(out) {
                Ok(()) => Stop::FileFault,
                Err(fault) => Stop::from(fault),
            },
        }
    }

    // Keeps the first bytes of a line until more of it comes.
    fn keep(&mut self, bytes: &[u8]) -> Result<(), AllocError>
        requires { has_line_end bytes.now ≡ false }
        ensures kept { OnOk result (self.new ≡ record self.old { line = self.old.line ++ bytes.now }) }
        ensures whole { OnOk result (has_line_end self.new.line ≡ false) }
    {
        self.line.extend_from_slice(bytes)?;
        Ok(())
    }

    // Writes the replies where they have become many.
    fn write_much<K: Sink>(&mut self, out: &mut K) -> Result<(), WriteFault>
        requires { IsTrue (K.ready out.old) }
        ensures written { OnOk result (WritesOn (K.held out.old) (K.held out.new) self.old self.new) }
        ensures err { OnErr result (GrowsByPrefix (K.held out.old) (K.held out.new) self.old.unwritten) }
        ensures ready { UnlessFailed result (IsTrue (K.ready out.new)) }
        ensures cause { HasWriteCause (K.faults out.old) (K.faults out.new) result }
    {
        if self.unwritten.len() < PIECE {
            return Ok(());
        }
        self.write_out(out)
    }

    // Writes the replies.
    fn write_out<K: Sink>(&mut self, out: &mut K) -> Result<(), WriteFault>
        requires { IsTrue (K.ready out.old) }
        ensures written { OnOk result (Grows (K.held out.old) (K.held out.new) self.old.unwritten) }
        ensures cleared { OnOk result (self.new ≡ record self.old { unwritten = [] }) }
        ensures err { OnErr result (GrowsByPrefix (K.held out.old) (K.held out.new) self.old.unwritten) }
        ensures ready { UnlessFailed result (IsTrue (K.ready out.new)) }
        ensures cause { HasWriteCause (K.faults out.old) (K.faults out.new) result }
    {
        write_all(out, &self.unwritten)?;
        self.unwritten.clear();
        Ok(())
    }
}

// The place of the first LF.
fn line_end(bytes: &[u8]) -> Option<usize>
    ensures end { IsLineEnd bytes.now result }
    ensures within { IfSome result (λ at. at < length bytes.now) }
{
    memchr(b'\n', bytes)
}
