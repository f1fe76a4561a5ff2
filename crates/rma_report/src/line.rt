//! The lines of a report.
ghost use Rattle.std.specs.Prelude.{◌++◌, codes};
ghost use Rattle.std.specs.List.{flat_map};
ghost use Rattle.rma_report.specs.inside.Buffering.{IsBuffered};
ghost use Rattle.rma_report.specs.ReportText.{header_line, other_text, finding_line, omitted_line, strict_line, verdict_line};

use crate::buffer::{TextBuffer, write, write_all};
use crate::finding::Finding;
use crate::pair::write_pair;
use crate::report::WriteFault;
use crate::strict::StrictFault;
use itoa::Buffer;
use rma_base::{EpochReason, FormReason, LineNo, Rank};
use rma_call::MatchFault;
use rma_io::Sink;

/// Writes the first line of the report.
pub fn write_header<S: Sink>(
    out: &mut S,
    buffer: &mut TextBuffer,
    ranks: u32,
    lines: u64,
) -> Result<(), WriteFault>
    ensures { IsBuffered (S.output out.old) buffer.old.bytes
        (header_line ranks lines)
        result buffer.new.bytes (S.output out.new) }
{
    let mut rank_digits = Buffer::new();
    let mut line_digits = Buffer::new();
    write_all(
        out,
        buffer,
        &[
            "rmaudit 1 ranks ",
            rank_digits.format(ranks),
            " lines ",
            line_digits.format(lines),
            "\n",
        ],
    )
}

/// Writes a line for each finding.
pub fn write_findings<S: Sink>(
    out: &mut S,
    buffer: &mut TextBuffer,
    found: &[Finding],
) -> Result<(), WriteFault>
    ensures { IsBuffered (S.output out.old) buffer.old.bytes
        (flat_map finding_line found.now)
        result buffer.new.bytes (S.output out.new) }
{
    for finding in found {
        match write_finding(out, buffer, finding) {
            Ok(()) => {}
            Err(fault) => return Err(fault),
        }
    }
    Ok(())
}

/// Writes the line of a finding.
pub fn write_finding<S: Sink>(
    out: &mut S,
    buffer: &mut TextBuffer,
    finding: &Finding,
) -> Result<(), WriteFault>
    ensures { IsBuffered (S.output out.old) buffer.old.bytes
        (finding_line finding.now)
        result buffer.new.bytes (S.output out.new) }
{
    match finding {
        Finding::Malformed { rank, line, reason } => write_malformed(
            out, buffer, *rank, *line, *reason,
        ),
        Finding::Mismatch(fault) => write_mismatch(out, buffer, fault),
        Finding::Impossible { rank, line } => write_impossible(out, buffer, *rank, *line),
        Finding::Epoch { rank, line, reason } => write_epoch(out, buffer, *rank, *line, *reason),
        Finding::Pair(pair) => write_pair(out, buffer, pair),
        Finding::Strict(fault) => write_strict(out, buffer, fault),
    }
}

/// Writes the line of a bad line of a log.
fn write_malformed<S: Sink>(
    out: &mut S,
    buffer: &mut TextBuffer,
    rank: Rank,
    line: LineNo,
    reason: FormReason,
) -> Result<(), WriteFault>
    ensures { IsBuffered (S.output out.old) buffer.old.bytes
        (finding_line (Finding.Malformed rank line reason))
        result buffer.new.bytes (S.output out.new) }
{
    let mut rank_digits = Buffer::new();
    let mut line_digits = Buffer::new();
    write_all(
        out,
        buffer,
        &[
            "malformed rank ",
            rank_digits.format(rank.0),
            " line ",
            line_digits.format(line.0),
            " reason ",
            reason.word(),
            "\n",
        ],
    )
}

/// Writes the line of a call without its match.
fn write_mismatch<S: Sink>(
    out: &mut S,
    buffer: &mut TextBuffer,
    fault: &MatchFault,
) -> Result<(), WriteFault>
    ensures { IsBuffered (S.output out.old) buffer.old.bytes
        (finding_line (Finding.Mismatch fault.now))
        result buffer.new.bytes (S.output out.new) }
{
    let mut rank_digits = Buffer::new();
    let mut line_digits = Buffer::new();
    write_all(
        out,
        buffer,
        &[
            "mismatch ",
            fault.reason.word(),
            " rank ",
            rank_digits.format(fault.rank.0),
            " line ",
            line_digits.format(fault.line.0),
        ],
    )?;
    write_other(out, buffer, fault.other)
}

/// Writes the line of a fault that a strict audit finds.
fn write_strict<S: Sink>(
    out: &mut S,
    buffer: &mut TextBuffer,
    fault: &StrictFault,
) -> Result<(), WriteFault>
    ensures { IsBuffered (S.output out.old) buffer.old.bytes
        (strict_line fault.now)
        result buffer.new.bytes (S.output out.new) }
{
    let mut rank_digits = Buffer::new();
    let mut line_digits = Buffer::new();
    write_all(
        out,
        buffer,
        &[
            "strict ",
            fault.reason.word(),
            " rank ",
            rank_digits.format(fault.rank.0),
            " line ",
            line_digits.format(fault.line.0),
        ],
    )?;
    write_other(out, buffer, fault.other)
}

/// Writes the end of such a line: the other call, where there is one.
fn write_other<S: Sink>(
    out: &mut S,
    buffer: &mut TextBuffer,
    other: Option<(Rank, LineNo)>,
) -> Result<(), WriteFault>
    ensures { IsBuffered (S.output out.old) buffer.old.bytes
        (other_text other ++ codes "\n")
        result buffer.new.bytes (S.output out.new) }
{
    let Some((rank, line)) = other else {
        return write(out, buffer, "\n");
    };
    let mut rank_digits = Buffer::new();
    let mut line_digits = Buffer::new();
    write_all(
        out,
        buffer,
        &[
            " with rank ",
            rank_digits.format(rank.0),
            " line ",
            line_digits.format(line.0),
            "\n",
        ],
    )
}

/// Writes the line of a call that is never left.
fn write_impossible<S: Sink>(
    out: &mut S,
    buffer: &mut TextBuffer,
    rank: Rank,
    line: LineNo,
) -> Result<(), WriteFault>
    ensures { IsBuffered (S.output out.old) buffer.old.bytes
        (finding_line (Finding.Impossible rank line))
        result buffer.new.bytes (S.output out.new) }
{
    let mut rank_digits = Buffer::new();
    let mut line_digits = Buffer::new();
    write_all(
        out,
        buffer,
        &[
            "impossible rank ",
            rank_digits.format(rank.0),
            " line ",
            line_digits.format(line.0),
            "\n",
        ],
    )
}

/// Writes the line of a call outside the epochs that allow it.
fn write_epoch<S: Sink>(
    out: &mut S,
    buffer: &mut TextBuffer,
    rank: Rank,
    line: LineNo,
    reason: EpochReason,
) -> Result<(), WriteFault>
    ensures { IsBuffered (S.output out.old) buffer.old.bytes
        (finding_line (Finding.Epoch rank line reason))
        result buffer.new.bytes (S.output out.new) }
{
    let mut rank_digits = Buffer::new();
    let mut line_digits = Buffer::new();
    write_all(
        out,
        buffer,
        &[
            "epoch ",
            reason.word(),
            " rank ",
            rank_digits.format(rank.0),
            " line ",
            line_digits.format(line.0),
            "\n",
        ],
    )
}

/// Writes the line that says how many findings are left out, where any is.
pub fn write_omitted<S: Sink>(
    out: &mut S,
    buffer: &mut TextBuffer,
    omitted: u64,
) -> Result<(), WriteFault>
    ensures { IsBuffered (S.output out.old) buffer.old.bytes
        (omitted_line omitted)
        result buffer.new.bytes (S.output out.new) }
{
    if omitted == 0 {
        return write(out, buffer, "");
    }
    let mut digits = Buffer::new();
    write_all(out, buffer, &["omitted ", digits.format(omitted), "\n"])
}

/// Writes the last line.
pub fn write_verdict<S: Sink>(
    out: &mut S,
    buffer: &mut TextBuffer,
    found: u64,
) -> Result<(), WriteFault>
    ensures { IsBuffered (S.output out.old) buffer.old.bytes
        (verdict_line found)
        result buffer.new.bytes (S.output out.new) }
{
    if found == 0 {
        return write(out, buffer, "clean\n");
    }
    let mut digits = Buffer::new();
    write_all(out, buffer, &["findings ", digits.format(found), "\n"])
}
