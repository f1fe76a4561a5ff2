//! Writing the report of what was found.
ghost use Rattle.std.specs.Prelude.{◌≡◌, ◌≤◌, ℕ, List};
ghost use Rattle.rma_command.specs.Asked.{audit_of};
ghost use Rattle.rma_io.specs.Sink.{Output};
ghost use Rattle.rma_report.specs.ExplainText.{explain_text};
ghost use Rattle.rma_report.specs.ReportText.{report_text};
ghost use Rattle.rma_report.specs.Writing.{IsWritten};
ghost use Rattle.rma_audit.specs.Answers.{WritesNothing, report_of, shown};
ghost use Rattle.rma_audit.specs.inside.Runs.{HasWritten};

use crate::status::Status;
use rma_base::Memory;
use rma_command::Audit;
use rma_io::Sink;
use rma_report::{Findings, WriteFault, json_text, write_explain, write_text};
use rma_stream::Explained;
use std::alloc::Global;

/// Writes the report, as the words of an audit ask for it.
pub(crate) fn write_report<S: Sink>(
    alloc: Global,
    audit: Audit<'_>,
    findings: &Findings,
    out: &mut S,
) -> Status
    ensures written { HasWritten result (report_of (audit_of audit.entry) findings.now.ranks findings.now.lines findings.now.list) findings.now.list (S.output out.old) (S.output out.new) }
    ensures nothing_written { WritesNothing result → out.new ≡ out.old }
{
    if !audit.json {
        return write_limited(audit.limit, findings, out);
    }
    match json_text(alloc, findings, shown(audit.limit, findings)) {
        Ok(text) => ended(findings, put(text.as_slice(), out)),
        Err(Memory) => Status::Memory,
    }
}

/// Writes the report as text, with as many findings as this limit says, or all.
pub(crate) fn write_limited<S: Sink>(limit: Option<u32>, findings: &Findings, out: &mut S) -> Status
    ensures written { HasWritten result (report_text findings.now.ranks findings.now.lines findings.now.list (shown limit findings.now.list)) findings.now.list (S.output out.old) (S.output out.new) }
    ensures something_written { WritesNothing result → ⊥ }
{
    ended(findings, write_text(findings, shown(limit, findings), out))
}

/// Writes how many findings there are, and shows none.
pub(crate) fn write_count<S: Sink>(findings: &Findings, out: &mut S) -> Status
    ensures written { HasWritten result (report_text findings.now.ranks findings.now.lines findings.now.list 0) findings.now.list (S.output out.old) (S.output out.new) }
    ensures something_written { WritesNothing result → ⊥ }
{
    ended(findings, write_text(findings, 0, out))
}

/// Writes the finding of this number, with the cuts that show it.
pub(crate) fn write_explained<S: Sink>(explained: &Explained, number: u32, out: &mut S) -> Status
    requires from_one { 1 ≤ number }
    ensures written { HasWritten result (explain_text explained.now.findings.ranks explained.now.findings.lines explained.now.findings.list number explained.now.cuts) explained.now.findings.list (S.output out.old) (S.output out.new) }
    ensures something_written { WritesNothing result → ⊥ }
{
    let findings = &explained.findings;
    ended(
        findings,
        write_explain(findings, number, explained.cuts.as_ref(), out),
    )
}

/// How many of the findings are shown.
fn shown(limit: Option<u32>, findings: &Findings) -> u64
    ensures { result ≡ shown limit findings.now.list }
{
    match limit {
        Some(limit) => u64::from(limit),
        None => findings.list.len() as u64,
    }
}

/// Puts a text to the sink.
fn put<S: Sink>(text: &[u8], out: &mut S) -> Result<(), WriteFault>
    ensures { IsWritten (S.output out.old) text.now result (S.output out.new) }
{
    match out.put(text) {
        Ok(()) => Ok(()),
        Err(_) => Err(WriteFault),
    }
}

/// The status of a run whose report was written so.
fn ended(findings: &Findings, written: Result<(), WriteFault>) -> Status
    ensures written { (text : List ℕ) (before after : Output) → IsWritten before text written after → HasWritten result text findings.now.list before after }
    ensures something_written { WritesNothing result → ⊥ }
{
    match written {
        Ok(()) if findings.list.is_empty() => Status::Clean,
        Ok(()) => Status::Findings,
        Err(_) => Status::WriteFault,
    }
}
