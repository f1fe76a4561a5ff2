//! Text that is kept until there is enough of it for one put.
ghost use Rattle.std.specs.Prelude.{◌≡◌, [], OnOk};
ghost use Rattle.std.specs.List.{flat_map};
ghost use Rattle.rma_report.specs.inside.Buffering.{IsBuffered};
ghost use Rattle.rma_report.specs.Writing.{IsWritten};

use crate::report::WriteFault;
use arrayvec::ArrayString;
use rma_io::Sink;

/// The text that was written and is not yet put to the sink.
pub type TextBuffer = ArrayString<4096>;

/// Writes a text to the buffer, which is put first where the text does not fit after it.
pub fn write<S: Sink>(out: &mut S, buffer: &mut TextBuffer, text: &str) -> Result<(), WriteFault>
    ensures { IsBuffered (S.output out.old) buffer.old.bytes
        text.now
        result buffer.new.bytes (S.output out.new) }
{
    if buffer.try_push_str(text).is_ok() {
        return Ok(());
    }
    flush(out, buffer)?;
    if buffer.try_push_str(text).is_ok() {
        return Ok(());
    }
    put(out, text)
}

/// Writes texts, one after the other.
pub fn write_all<S: Sink>(
    out: &mut S,
    buffer: &mut TextBuffer,
    texts: &[&str],
) -> Result<(), WriteFault>
    ensures { IsBuffered (S.output out.old) buffer.old.bytes
        (flat_map (λ text. text.now) texts.now)
        result buffer.new.bytes (S.output out.new) }
{
    for text in texts {
        match write(out, buffer, text) {
            Ok(()) => {}
            Err(fault) => return Err(fault),
        }
    }
    Ok(())
}

/// Puts what the buffer has to the sink.
pub fn flush<S: Sink>(out: &mut S, buffer: &mut TextBuffer) -> Result<(), WriteFault>
    ensures passed { IsBuffered (S.output out.old) buffer.old.bytes
        []
        result buffer.new.bytes (S.output out.new) }
    ensures empty { OnOk result (buffer.new.bytes ≡ []) }
{
    put(out, buffer.as_str())?;
    buffer.clear();
    Ok(())
}

/// Puts a text to the sink.
fn put<S: Sink>(out: &mut S, text: &str) -> Result<(), WriteFault>
    ensures { IsWritten (S.output out.old) text.now result (S.output out.new) }
{
    match out.put(text.as_bytes()) {
        Ok(()) => Ok(()),
        Err(_) => Err(WriteFault),
    }
}
