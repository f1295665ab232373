use ld_reader::TextFault;
use lef_forms::LefKind;

/// Why a LEF text isn't read.
pub type LefFault = TextFault<LefKind>;
