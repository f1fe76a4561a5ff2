//! The text of a report.
ghost use Rattle.rma_report.specs.inside.Buffering.{IsBuffered};
ghost use Rattle.rma_report.specs.ReportText.{body_text, report_text};
ghost use Rattle.rma_report.specs.Writing.{IsWritten};

use crate::buffer::{TextBuffer, flush};
use crate::finding::{Finding, Findings};
use crate::line::{write_findings, write_header, write_omitted, write_verdict};
use rma_io::Sink;

/// The sink failed.
#[derive(Clone, Copy, Debug, PartialEq, Eq)]
pub struct WriteFault;

/// Writes the report on these findings, with at most `limit` lines of findings. It takes no memory.
///
/// # Errors
///
/// `WriteFault` where the sink failed: a prefix of the report was written, and the sink's count of faults rose.
pub fn write_text<S: Sink>(findings: &Findings, limit: u64, out: &mut S) -> Result<(), WriteFault>
    ensures { IsWritten (S.output out.old)
        (report_text findings.now.ranks findings.now.lines findings.now.list limit)
        result (S.output out.new) }
{
    let mut buffer = TextBuffer::new();
    write_lines(findings, limit, out, &mut buffer)?;
    flush(out, &mut buffer)
}

/// Writes all lines of the report.
fn write_lines<S: Sink>(
    findings: &Findings,
    limit: u64,
    out: &mut S,
    buffer: &mut TextBuffer,
) -> Result<(), WriteFault>
    ensures { IsBuffered (S.output out.old) buffer.old.bytes
        (report_text findings.now.ranks findings.now.lines findings.now.list limit)
        result buffer.new.bytes (S.output out.new) }
{
    write_header(out, buffer, findings.ranks, findings.lines)?;
    write_body(findings.list.as_slice(), limit, out, buffer)
}

/// Writes the lines after the first.
fn write_body<S: Sink>(
    found: &[Finding],
    limit: u64,
    out: &mut S,
    buffer: &mut TextBuffer,
) -> Result<(), WriteFault>
    ensures { IsBuffered (S.output out.old) buffer.old.bytes
        (body_text found.now limit)
        result buffer.new.bytes (S.output out.new) }
{
    let count = found.len() as u64;
    write_findings(out, buffer, &found[..limit.min(count) as usize])?;
    write_omitted(out, buffer, count.saturating_sub(limit))?;
    write_verdict(out, buffer, count)
}
