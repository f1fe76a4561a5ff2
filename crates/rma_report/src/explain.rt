//! The text that explains one of the findings.
ghost use Rattle.std.specs.Prelude.{◌++◌, ◌≤◌, codes, decimal, option_copied};
ghost use Rattle.std.specs.List.{flat_map};
ghost use Rattle.rma_report.specs.ExplainText.{chosen_text, cut_text, cuts_text, explain_text, later_number_text};
ghost use Rattle.rma_report.specs.inside.Buffering.{IsBuffered};
ghost use Rattle.rma_report.specs.Writing.{IsWritten};

use crate::buffer::{TextBuffer, flush, write, write_all};
use crate::finding::{Finding, Findings};
use crate::line::{write_finding, write_header, write_verdict};
use crate::report::WriteFault;
use itoa::Buffer;
use rma_cut::Cuts;
use rma_io::Sink;

/// Writes the finding of this number, counted from 1, where there are so many; the two cuts that show it, where they are given; and how
/// many findings there are. It takes no memory.
///
/// # Errors
///
/// `WriteFault` where the sink failed: a prefix of the text was written, and the sink's count of faults rose.
pub fn write_explain<S: Sink>(
    findings: &Findings,
    number: u32,
    cuts: Option<&Cuts>,
    out: &mut S,
) -> Result<(), WriteFault>
    requires { 1 ≤ number }
    ensures { IsWritten (S.output out.old)
        (explain_text findings.now.ranks findings.now.lines findings.now.list number (option_copied cuts.entry))
        result (S.output out.new) }
{
    let mut buffer = TextBuffer::new();
    write_explanation(out, &mut buffer, findings, number, cuts)?;
    flush(out, &mut buffer)
}

/// Writes all lines of the text.
fn write_explanation<S: Sink>(
    out: &mut S,
    buffer: &mut TextBuffer,
    findings: &Findings,
    number: u32,
    cuts: Option<&Cuts>,
) -> Result<(), WriteFault>
    requires { 1 ≤ number }
    ensures { IsBuffered (S.output out.old) buffer.old.bytes
        (explain_text findings.now.ranks findings.now.lines findings.now.list number (option_copied cuts.entry))
        result buffer.new.bytes (S.output out.new) }
{
    let found = findings.list.as_slice();
    write_header(out, buffer, findings.ranks, findings.lines)?;
    write_chosen(out, buffer, found.get(number as usize - 1))?;
    write_cuts(out, buffer, cuts)?;
    write_verdict(out, buffer, found.len() as u64)
}

/// Writes the line of a finding, where there is one.
fn write_chosen<S: Sink>(
    out: &mut S,
    buffer: &mut TextBuffer,
    finding: Option<&Finding>,
) -> Result<(), WriteFault>
    ensures { IsBuffered (S.output out.old) buffer.old.bytes
        (chosen_text (option_copied finding.entry))
        result buffer.new.bytes (S.output out.new) }
{
    match finding {
        Some(finding) => write_finding(out, buffer, finding),
        None => write(out, buffer, ""),
    }
}

/// Writes the lines of two cuts, where there are any.
fn write_cuts<S: Sink>(
    out: &mut S,
    buffer: &mut TextBuffer,
    cuts: Option<&Cuts>,
) -> Result<(), WriteFault>
    ensures { IsBuffered (S.output out.old) buffer.old.bytes
        (cuts_text (option_copied cuts.entry))
        result buffer.new.bytes (S.output out.new) }
{
    let Some(cuts) = cuts else {
        return write(out, buffer, "");
    };
    write_cut(out, buffer, "cut first ", cuts.first.as_slice())?;
    write_cut(out, buffer, "cut second ", cuts.second.as_slice())
}

/// Writes a line of a cut, behind the text that stands before it.
fn write_cut<S: Sink>(
    out: &mut S,
    buffer: &mut TextBuffer,
    before: &str,
    cut: &[u32],
) -> Result<(), WriteFault>
    ensures { IsBuffered (S.output out.old) buffer.old.bytes
        (before.now ++ cut_text cut.now ++ codes "\n")
        result buffer.new.bytes (S.output out.new) }
{
    let Some((first, rest)) = cut.split_first() else {
        return write_all(out, buffer, &[before, "\n"]);
    };
    write_number(out, buffer, before, *first)?;
    write_later_numbers(out, buffer, rest)?;
    write(out, buffer, "\n")
}

/// Writes numbers, each behind a comma.
fn write_later_numbers<S: Sink>(
    out: &mut S,
    buffer: &mut TextBuffer,
    numbers: &[u32],
) -> Result<(), WriteFault>
    ensures { IsBuffered (S.output out.old) buffer.old.bytes
        (flat_map later_number_text numbers.now)
        result buffer.new.bytes (S.output out.new) }
{
    for number in numbers {
        match write_number(out, buffer, ",", *number) {
            Ok(()) => {}
            Err(fault) => return Err(fault),
        }
    }
    Ok(())
}

/// Writes a number, behind the text that stands before it.
fn write_number<S: Sink>(
    out: &mut S,
    buffer: &mut TextBuffer,
    before: &str,
    number: u32,
) -> Result<(), WriteFault>
    ensures { IsBuffered (S.output out.old) buffer.old.bytes
        (before.now ++ decimal number)
        result buffer.new.bytes (S.output out.new) }
{
    let mut digits = Buffer::new();
    write_all(out, buffer, &[before, digits.format(number)])
}
