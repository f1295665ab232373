ghost use Rattle.std.specs.Prelude.{◌≡◌, ◌++◌, OnOk, decimal};
ghost use Rattle.reports.specs.Texts.{line_end, spaced, value};

use itoa::Buffer;
use std::alloc::AllocError;

/// Appends a number.
pub fn put_number(out: &mut Vec<u8>, n: u64) -> Result<(), AllocError>
    ensures { OnOk result (out.new.items ≡ out.old.items ++ decimal n) }
{
    let mut buffer = Buffer::new();
    out.extend_from_slice(buffer.format(n).as_bytes())?;
    Ok(())
}

/// Appends a space and a number.
pub fn put_value(out: &mut Vec<u8>, n: u64) -> Result<(), AllocError>
    ensures { OnOk result (out.new.items ≡ out.old.items ++ value n) }
{
    out.extend_from_slice(b" ")?;
    put_number(out, n)?;
    Ok(())
}

/// Appends a space and a word.
pub fn put_word(out: &mut Vec<u8>, word: &[u8]) -> Result<(), AllocError>
    ensures { OnOk result (out.new.items ≡ out.old.items ++ spaced word.now) }
{
    out.extend_from_slice(b" ")?;
    out.extend_from_slice(word)?;
    Ok(())
}

/// Appends the end of a line.
pub fn end_line(out: &mut Vec<u8>) -> Result<(), AllocError>
    ensures { OnOk result (out.new.items ≡ out.old.items ++ line_end) }
{
    out.extend_from_slice(b"\n")?;
    Ok(())
}
