ghost use Rattle.std.specs.Prelude.{◌≡◌, ◌≢◌, ◌-◌, ◌<◌, ◌≤◌, ◌^◌, None, IfOk, IsErrOf, IfSome, IsSome, IsSomeAnd, IsTrue, length};
ghost use Rattle.odb_outside.specs.Outside.{Rose};
ghost use Rattle.odb_outside.specs.Shelves.{files_told};
ghost use Rattle.odb_outside.specs.declared.shelf.Hand.{Hand as AnyHand};
ghost use Rattle.odb_run.specs.Headline.{IsAnswered, ReadsToldAs, RunsToldAs};
ghost use Rattle.odb_run.specs.Machine.{start};
ghost use Rattle.odb_run.specs.Running.{HasFaultCause, ended, first_run};
ghost use Rattle.odb_run.specs.Options.{slots_of};

use crate::options::slots;
use crate::run::{PIECE, Run};
use crate::status::Status;
use crate::stop::Stop;
use odb_base::{Steps, Text};
use odb_outside::{Hand, Shelf, Sink, Source};
use std::alloc::{AllocError, Global};
use std::marker::Brand;
use std::sync::ledger::{Blank, Ledger};

/// The greatest number of bytes in a script.
pub const SCRIPT_LIMIT: usize = 1 << 30;

/// Runs the script to its end or to what stops it.
///
/// With `Done` or `Refused`, nothing of the script is left, `out` has gained the replies of the copying machine to all
/// its lines, the files of the shelf are the machine's, and `Refused` says that one of the replies is a refusal. With
/// `ScriptFault` or `ScriptTooLong` that is so of the lines whose LF was read before. With `FileFault`, `out` has gained
/// just the replies to the lines before the one at which a file failed, and with `OutFault` or `Memory` a prefix of the
/// replies to the first lines. The lawful command line is the empty list of words, or `--slots` and a number from 1 to
/// 16,777,215: the greatest number of slots that a table may have, which is also taken where none is given.
pub fn odb_main<S: Source, K: Sink, F: Shelf>(
    alloc: Global,
    words: &[Text],
    script: &mut S,
    out: &mut K,
    shelf: &mut F,
) -> Status
    requires script_ready { IsTrue (S.ready script.old) }
    requires out_ready { IsTrue (K.ready out.old) }
    requires hand { F.hand shelf.old ≡ Hand.Nothing }
    ensures runs { IfSome (slots_of words.now)
        (λ cap. RunsToldAs (start cap) result (S.left script.old) (S.left script.new) (K.held out.old) (K.held out.new)
        (files_told (F.told shelf.old)) (files_told (F.told shelf.new))) }
    ensures script_read { ReadsToldAs result (S.left script.old) (S.left script.new) }

    // Why a status comes.
    ensures usage { slots_of words.now ≡ None → result ≡ Status.Usage }
    ensures lawful { IsSome (slots_of words.now) → result ≢ Status.Usage }
    ensures untouched { result ≡ Status.Usage → (script.new ≡ script.old) × (out.new ≡ out.old) × (shelf.new ≡ shelf.old) }
    ensures script_fault { result ≡ Status.ScriptFault → Rose (S.faults script.old) (S.faults script.new) }
    ensures out_fault { result ≡ Status.OutFault → Rose (K.faults out.old) (K.faults out.new) }
    ensures file_fault { result ≡ Status.FileFault → Rose (F.faults shelf.old) (F.faults shelf.new) }
    ensures too_long { result ≡ Status.ScriptTooLong → IfSome (S.left script.old) (λ bytes. 2 ^ 30 < length bytes) }

    // Where nothing is in the way, the whole script is answered.
    ensures complete { IsSome (slots_of words.now)
        → ¬ Rose (S.faults script.old) (S.faults script.new) → ¬ Rose (K.faults out.old) (K.faults out.new) → ¬ Rose (F.faults shelf.old) (F.faults shelf.new)
        → IsSomeAnd (S.left script.old) (λ bytes. length bytes ≤ 2 ^ 30) → IsAnswered result }
{
    match slots(words) {
        Some(cap) => run_counted::<S, K, F, Brand>(alloc, cap, script, out, shelf, Blank::new(1)),
        None => Status::Usage,
    }
}

// Runs the script over a counter of steps of its own.
fn run_counted<S: Source, K: Sink, F: Shelf, L: Ledger>(
    alloc: Global,
    cap: u32,
    script: &mut S,
    out: &mut K,
    shelf: &mut F,
    blank: Blank,
) -> Status
    requires cap { cap ≤ 16777215 }
    requires script_ready { IsTrue (S.ready script.old) }
    requires out_ready { IsTrue (K.ready out.old) }
    requires hand { F.hand shelf.old ≡ Hand.Nothing }
    requires name { blank.name ≡ L.name }
    requires parts { blank.parts ≡ L.parts }
    requires some { blank.parts ≡ 1 }
    ensures runs { RunsToldAs (start cap) result (S.left script.old) (S.left script.new) (K.held out.old) (K.held out.new) (files_told (F.told shelf.old)) (files_told (F.told shelf.new)) }
    ensures script_read { ReadsToldAs result (S.left script.old) (S.left script.new) }
    ensures lawful { result ≢ Status.Usage }
    ensures script_fault { result ≡ Status.ScriptFault → Rose (S.faults script.old) (S.faults script.new) }
    ensures out_fault { result ≡ Status.OutFault → Rose (K.faults out.old) (K.faults out.new) }
    ensures file_fault { result ≡ Status.FileFault → Rose (F.faults shelf.old) (F.faults shelf.new) }
    ensures too_long { result ≡ Status.ScriptTooLong → IfSome (S.left script.old) (λ bytes. 2 ^ 30 < length bytes) }
{
    let mut moves = Steps::<L>::new(blank);
    match run_script(alloc, cap, script, out, shelf, &mut moves) {
        Ok(false) => Status::Done,
        Ok(true) => Status::Refused,
        Err(stop) => stop.status(),
    }
}

// Runs the script, and says whether some line was refused.
fn run_script<S: Source, K: Sink, F: Shelf, L: Ledger>(
    alloc: Global,
    cap: u32,
    script: &mut S,
    out: &mut K,
    shelf: &mut F,
    moves: &mut Steps<L>,
) -> Result<bool, Stop>
    requires cap { cap ≤ 16777215 }
    requires script_ready { IsTrue (S.ready script.old) }
    requires out_ready { IsTrue (K.ready out.old) }
    requires hand { F.hand shelf.old ≡ Hand.Nothing }
    ensures runs { RunsToldAs (start cap) (ended result) (S.left script.old) (S.left script.new) (K.held out.old) (K.held out.new) (files_told (F.told shelf.old)) (files_told (F.told shelf.new)) }
    ensures script_read { ReadsToldAs (ended result) (S.left script.old) (S.left script.new) }
    ensures script_cause { HasFaultCause (S.faults script.old) (S.faults script.new) result Stop.ScriptFault }
    ensures out_cause { HasFaultCause (K.faults out.old) (K.faults out.new) result Stop.OutFault }
    ensures file_cause { HasFaultCause (F.faults shelf.old) (F.faults shelf.new) result Stop.FileFault }
    ensures too_long { IsErrOf result Stop.ScriptTooLong → IfSome (S.left script.old) (λ bytes. 2 ^ 30 < length bytes) }
{
    let mut buffer = zeros(alloc, PIECE)?;
    let mut run = Run::new(alloc, cap)?;
    let result = take_pieces(alloc, &mut run, &mut buffer, script, out, shelf, moves);
    // By a call, which is proved once for each type.
    drop(run);
    result
}

// Takes the pieces of the script one after the other, each into the buffer.
fn take_pieces<S: Source, K: Sink, F: Shelf, L: Ledger>(
    alloc: Global,
    run: &mut Run,
    buffer: &mut [u8],
    script: &mut S,
    out: &mut K,
    shelf: &mut F,
    moves: &mut Steps<L>,
) -> Result<bool, Stop>
    requires first { run.old ≡ first_run run.old.state }
    requires room { length buffer.old ≡ PIECE }
    requires script_ready { IsTrue (S.ready script.old) }
    requires out_ready { IsTrue (K.ready out.old) }
    requires hand { F.hand shelf.old ≡ Hand.Nothing }
    ensures runs { RunsToldAs run.old.state (ended result) (S.left script.old) (S.left script.new) (K.held out.old) (K.held out.new) (files_told (F.told shelf.old)) (files_told (F.told shelf.new)) }
    ensures script_read { ReadsToldAs (ended result) (S.left script.old) (S.left script.new) }
    ensures script_cause { HasFaultCause (S.faults script.old) (S.faults script.new) result Stop.ScriptFault }
    ensures out_cause { HasFaultCause (K.faults out.old) (K.faults out.new) result Stop.OutFault }
    ensures file_cause { HasFaultCause (F.faults shelf.old) (F.faults shelf.new) result Stop.FileFault }
    ensures too_long { IsErrOf result Stop.ScriptTooLong → IfSome (S.left script.old) (λ bytes. 2 ^ 30 < length bytes) }
{
    let mut taken = 0;
    'pieces: loop {
        let piece = &mut buffer[..room_for(taken)];
        let n = script.read(piece)?;
        if n == 0 {
            return run.finish(alloc, shelf, out, moves);
        }
        if taken == SCRIPT_LIMIT {
            return Err(Stop::ScriptTooLong);
        }
        taken += n;
        run.take_piece(alloc, &piece[..n], shelf, out, moves)?;
    }
}

// How many bytes of the script may be read at once, after so many. After the last that a script may have,
// one more byte is asked for, which tells a script that is too long.
fn room_for(taken: usize) -> usize
    ensures some { 0 < result }
    ensures piece { result ≤ PIECE }
    ensures limit { taken < 1073741824 → result ≤ 1073741824 - taken }
    ensures one { 1073741824 ≤ taken → result ≡ 1 }
{
    if taken < SCRIPT_LIMIT {
        PIECE.min(SCRIPT_LIMIT - taken)
    } else {
        1
    }
}

// So many bytes of 0.
fn zeros(alloc: Global, count: usize) -> Result<Vec<u8>, AllocError>
    ensures { IfOk result (λ zeros. length zeros.items ≡ count) }
{
    vec![in alloc; 0; count]
}
