ghost use Rattle.std.specs.Prelude.{◌≡◌, ◌≢◌, ◌++◌, OnOk};
ghost use Rattle.odb_base.specs.Kind.{kind_word};
ghost use Rattle.reports.specs.Texts.{line_end, spaced, value};
ghost use Rattle.odb_run.specs.Replies.{added_text, build_text, fault_text, lef_kind_word, lef_text, load_fault_text, long_file_text, long_line_text, no_file_text, not_live_text, number_text, ok_text, outcome_text, part_text, refusal_text, report_fault_text, saved_text, wrong_state_text};

use crate::outcome::Outcome;
use edit_words::Refusal;
use lef_build::BuildFault;
use lef_files::LefFileFault;
use odb_base::{EcoState, Kind, Worded};
use odb_save::LoadFault;
use reports::ReportFault;
use reports::text::{end_line, put_value, put_word};
use script_words::LineFault;
use std::alloc::{AllocError, Global};
use tech_parts::{Added, PartFault};

/// Appends `ok`.
#[tactic(auto, unfolding(crate::specs::Replies::ok_text))]
pub fn put_ok(out: &mut Vec<u8>) -> Result<(), AllocError>
    ensures { OnOk result (out.new.items ≡ out.old.items ++ ok_text) }
{
    out.extend_from_slice(b"ok\n")?;
    Ok(())
}

/// Appends `ok N`.
#[tactic(auto, unfolding(crate::specs::Replies::number_text))]
pub fn put_ok_number(out: &mut Vec<u8>, n: u64) -> Result<(), AllocError>
    ensures { OnOk result (out.new.items ≡ out.old.items ++ number_text n) }
{
    out.extend_from_slice(b"ok")?;
    put_value(out, n)?;
    end_line(out)?;
    Ok(())
}

/// Appends `ok ID A R D M`.
#[tactic(auto, unfolding(crate::specs::Replies::outcome_text))]
pub fn put_outcome(out: &mut Vec<u8>, outcome: &Outcome) -> Result<(), AllocError>
    ensures { OnOk result (out.new.items ≡ out.old.items ++ outcome_text outcome.now) }
{
    out.extend_from_slice(b"ok")?;
    put_value(out, outcome.id as u64)?;
    put_value(out, outcome.accepted as u64)?;
    put_value(out, outcome.refused as u64)?;
    put_value(out, outcome.deep as u64)?;
    put_value(out, outcome.many as u64)?;
    end_line(out)?;
    Ok(())
}

/// Appends `ok BYTES HEX` of saved bytes.
#[tactic(auto, unfolding(crate::specs::Replies::saved_text))]
pub fn put_saved(alloc: Global, out: &mut Vec<u8>, bytes: &[u8]) -> Result<(), AllocError>
    ensures { OnOk result (out.new.items ≡ out.old.items ++ saved_text bytes.now) }
{
    out.extend_from_slice(b"ok")?;
    put_value(out, bytes.len() as u64)?;
    out.extend_from_slice(b" ")?;
    let digits = hex::encode(alloc, bytes)?;
    out.extend_from_slice(digits.as_bytes())?;
    end_line(out)?;
    Ok(())
}

/// Appends the refusal of an edit; for want of memory there is none.
#[tactic(auto, unfolding(crate::specs::Replies::refusal_text))]
pub fn put_refusal(out: &mut Vec<u8>, refusal: Refusal) -> Result<(), AllocError>
    ensures text { OnOk result (out.new.items ≡ out.old.items ++ refusal_text refusal) }
    ensures memory { OnOk result (refusal ≢ Refusal.Memory) }
{
    match refusal {
        Refusal::NotLive { kind, id } => put_not_live(out, kind, id),
        Refusal::BadValue { at } => put_numbered(out, b"refused 3 BadValue", at as u64),
        Refusal::BadName { at } => put_numbered(out, b"refused 4 BadName", at as u64),
        Refusal::Unknown { at } => put_numbered(out, b"refused 5 Unknown", at as u64),
        Refusal::NameTaken { id } => put_numbered(out, b"refused 6 NameTaken", id as u64),
        Refusal::Joined { net } => put_numbered(out, b"refused 7 Joined", net as u64),
        Refusal::NotJoined => put_line(out, b"refused 8 NotJoined"),
        Refusal::TermsDiffer { name } => put_worded(out, b"refused 9 TermsDiffer", name.bytes()),
        Refusal::Special => put_line(out, b"refused 13 Special"),
        Refusal::TableFull { kind } => put_worded(out, b"refused 15 TableFull", kind.word()),
        Refusal::Memory => Err(AllocError),
    }
}

/// Appends the refusal of a line that is no command; for want of memory there is none.
#[tactic(auto, unfolding(crate::specs::Replies::fault_text))]
pub fn put_fault(out: &mut Vec<u8>, fault: LineFault) -> Result<(), AllocError>
    ensures { OnOk result (out.new.items ≡ out.old.items ++ fault_text fault) }
{
    match fault {
        LineFault::UnknownCommand => put_line(out, b"refused 21 UnknownCommand"),
        LineFault::BadWords => put_line(out, b"refused 22 BadWords"),
        LineFault::Memory => Err(AllocError),
    }
}

/// Appends the refusal of a line that is too long.
#[tactic(auto, unfolding(crate::specs::Replies::long_line_text))]
pub fn put_long_line(out: &mut Vec<u8>) -> Result<(), AllocError>
    ensures { OnOk result (out.new.items ≡ out.old.items ++ long_line_text) }
{
    put_line(out, b"refused 23 LongLine")
}

/// Appends the refusal of a command that the ECO state doesn't allow.
#[tactic(auto, unfolding(crate::specs::Replies::wrong_state_text))]
pub fn put_wrong_state(out: &mut Vec<u8>, state: EcoState) -> Result<(), AllocError>
    ensures { OnOk result (out.new.items ≡ out.old.items ++ wrong_state_text state) }
{
    put_worded(out, b"refused 24 WrongState", state.word())
}

/// Appends the refusal of parts; for want of memory there is none.
#[tactic(auto, unfolding(crate::specs::Replies::part_text))]
pub fn put_part_fault(out: &mut Vec<u8>, fault: PartFault) -> Result<(), AllocError>
    ensures text { OnOk result (out.new.items ≡ out.old.items ++ part_text fault) }
    ensures memory { OnOk result (fault ≢ PartFault.Memory) }
{
    match fault {
        PartFault::UnitsChanged { had, got } => {
            put_two_numbers(out, b"refused 28 LefBuild UnitsChanged", had, got)
        }
        PartFault::NameTaken { at } => put_numbered(out, b"refused 28 LefBuild NameTaken", at),
        PartFault::BadPart { at } => put_numbered(out, b"refused 28 LefBuild BadPart", at),
        PartFault::Full { at } => put_numbered(out, b"refused 28 LefBuild Full", at),
        PartFault::Memory => Err(AllocError),
    }
}

/// Appends the refusal of a LEF text: the line of its first fault, and what it is.
#[tactic(auto, unfolding(crate::specs::Replies::lef_text))]
pub fn put_lef_fault(out: &mut Vec<u8>, line: u64, kind: LefFileFault) -> Result<(), AllocError>
    ensures { OnOk result (out.new.items ≡ out.old.items ++ lef_text line kind) }
{
    out.extend_from_slice(b"refused 27 LefText")?;
    put_value(out, line)?;
    put_word(out, lef_word(kind))?;
    end_line(out)?;
    Ok(())
}

fn lef_word(kind: LefFileFault) -> &'static [u8]
    ensures { result.now ≡ lef_kind_word kind }
{
    match kind {
        LefFileFault::Unexpected => b"Unexpected",
        LefFileFault::BadNumber => b"BadNumber",
        LefFileFault::BadName => b"BadName",
        LefFileFault::Cut => b"Cut",
        LefFileFault::OpenQuote => b"OpenQuote",
        LefFileFault::LongWord => b"LongWord",
        LefFileFault::TooLong => b"TooLong",
    }
}

/// Appends the refusal of a LEF text that has no parts; for want of memory there is none.
#[tactic(auto, unfolding(crate::specs::Replies::build_text))]
pub fn put_build_fault(out: &mut Vec<u8>, fault: BuildFault) -> Result<(), AllocError>
    ensures text { OnOk result (out.new.items ≡ out.old.items ++ build_text fault) }
    ensures memory { OnOk result (fault ≢ BuildFault.Memory) }
{
    match fault {
        BuildFault::NoUnits => put_line(out, b"refused 28 LefBuild NoUnits"),
        BuildFault::UnitsChanged { had, got } => {
            put_part_fault(out, PartFault::UnitsChanged { had, got })
        }
        BuildFault::UnknownLayer { name } => {
            put_worded(out, b"refused 28 LefBuild UnknownLayer", name.bytes())
        }
        BuildFault::UnknownSite { name } => {
            put_worded(out, b"refused 28 LefBuild UnknownSite", name.bytes())
        }
        BuildFault::BadValue { name } => {
            put_worded(out, b"refused 28 LefBuild BadValue", name.bytes())
        }
        BuildFault::Memory => Err(AllocError),
    }
}

/// Appends `ok LAYERS VIAS SITES MASTERS PASSED`.
#[tactic(auto, unfolding(crate::specs::Replies::added_text))]
pub fn put_added(out: &mut Vec<u8>, added: &Added, passed: u64) -> Result<(), AllocError>
    ensures { OnOk result (out.new.items ≡ out.old.items ++ added_text passed added.now) }
{
    out.extend_from_slice(b"ok")?;
    put_value(out, added.layers as u64)?;
    put_value(out, added.vias as u64)?;
    put_value(out, added.sites as u64)?;
    put_value(out, added.masters as u64)?;
    put_value(out, passed)?;
    end_line(out)?;
    Ok(())
}

/// Appends the refusal of a query; for want of memory there is none.
#[tactic(auto, unfolding(crate::specs::Replies::report_fault_text))]
pub fn put_report_fault(out: &mut Vec<u8>, fault: ReportFault) -> Result<(), AllocError>
    ensures text { OnOk result (out.new.items ≡ out.old.items ++ report_fault_text fault) }
    ensures memory { OnOk result (fault ≢ ReportFault.Memory) }
{
    match fault {
        ReportFault::NotLive { kind, id } => put_not_live(out, kind, id),
        ReportFault::Memory => Err(AllocError),
    }
}

/// Appends the refusal of a file that isn't there.
#[tactic(auto, unfolding(crate::specs::Replies::no_file_text))]
pub fn put_no_file(out: &mut Vec<u8>) -> Result<(), AllocError>
    ensures { OnOk result (out.new.items ≡ out.old.items ++ no_file_text) }
{
    put_line(out, b"refused 25 NoFile")
}

/// Appends the refusal of bytes that spell no sound database; for want of memory there is none.
#[tactic(auto, unfolding(crate::specs::Replies::load_fault_text))]
pub fn put_load_fault(out: &mut Vec<u8>, fault: LoadFault) -> Result<(), AllocError>
    ensures text { OnOk result (out.new.items ≡ out.old.items ++ load_fault_text fault) }
    ensures memory { OnOk result (fault ≢ LoadFault.Memory) }
{
    match fault {
        LoadFault::NotSaved => put_line(out, b"refused 34 SavedText NotSaved"),
        LoadFault::Version { got } => put_numbered(
            out,
            b"refused 34 SavedText Version",
            got as u64,
        ),
        LoadFault::Cut { at } => put_numbered(out, b"refused 34 SavedText Cut", at),
        LoadFault::BadField { at } => put_numbered(out, b"refused 34 SavedText BadField", at),
        LoadFault::OverCap { kind } => {
            put_worded(out, b"refused 34 SavedText OverCap", kind.word())
        }
        LoadFault::Trailing { at } => put_numbered(out, b"refused 34 SavedText Trailing", at),
        LoadFault::Unsound { kind: None, id } => {
            put_numbered(out, b"refused 34 SavedText Unsound header", id as u64)
        }
        LoadFault::Unsound {
            kind: Some(kind),
            id,
        } => put_named(out, b"refused 34 SavedText Unsound", kind, id),
        LoadFault::Memory => Err(AllocError),
    }
}

/// Appends the refusal of a file that is too long.
#[tactic(auto, unfolding(crate::specs::Replies::long_file_text))]
pub fn put_long_file(out: &mut Vec<u8>) -> Result<(), AllocError>
    ensures { OnOk result (out.new.items ≡ out.old.items ++ long_file_text) }
{
    put_line(out, b"refused 36 FileTooLong")
}

// Appends the refusal of what names an object that isn't there.
#[tactic(auto, unfolding(crate::specs::Replies::not_live_text))]
fn put_not_live(out: &mut Vec<u8>, kind: Kind, id: u32) -> Result<(), AllocError>
    ensures { OnOk result (out.new.items ≡ out.old.items ++ not_live_text kind id) }
{
    put_named(out, b"refused 2 NotLive", kind, id)
}

// Appends a line of a text, a kind and an identifier.
fn put_named(out: &mut Vec<u8>, text: &[u8], kind: Kind, id: u32) -> Result<(), AllocError>
    ensures { OnOk result (out.new.items ≡ out.old.items ++ (text.now ++ spaced (kind_word kind) ++ value id ++ line_end)) }
{
    put_text_and_word(out, text, kind.word())?;
    put_value(out, id as u64)?;
    end_line(out)?;
    Ok(())
}

// Appends a line of a text and a number.
fn put_numbered(out: &mut Vec<u8>, text: &[u8], n: u64) -> Result<(), AllocError>
    ensures { OnOk result (out.new.items ≡ out.old.items ++ (text.now ++ value n ++ line_end)) }
{
    out.extend_from_slice(text)?;
    put_value(out, n)?;
    end_line(out)?;
    Ok(())
}

// Appends a line of a text and two numbers.
fn put_two_numbers(out: &mut Vec<u8>, text: &[u8], a: u32, b: u32) -> Result<(), AllocError>
    ensures { OnOk result (out.new.items ≡ out.old.items ++ (text.now ++ value a ++ value b ++ line_end)) }
{
    out.extend_from_slice(text)?;
    put_value(out, a as u64)?;
    put_value(out, b as u64)?;
    end_line(out)?;
    Ok(())
}

// Appends a line of a text and a word.
fn put_worded(out: &mut Vec<u8>, text: &[u8], word: &[u8]) -> Result<(), AllocError>
    ensures { OnOk result (out.new.items ≡ out.old.items ++ (text.now ++ spaced word.now ++ line_end)) }
{
    put_text_and_word(out, text, word)?;
    end_line(out)?;
    Ok(())
}

// Appends a text and a word.
fn put_text_and_word(out: &mut Vec<u8>, text: &[u8], word: &[u8]) -> Result<(), AllocError>
    ensures { OnOk result (out.new.items ≡ out.old.items ++ (text.now ++ spaced word.now)) }
{
    out.extend_from_slice(text)?;
    put_word(out, word)?;
    Ok(())
}

// Appends a line of a text.
fn put_line(out: &mut Vec<u8>, text: &[u8]) -> Result<(), AllocError>
    ensures { OnOk result (out.new.items ≡ out.old.items ++ (text.now ++ line_end)) }
{
    out.extend_from_slice(text)?;
    end_line(out)?;
    Ok(())
}
