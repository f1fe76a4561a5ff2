//! The report as JSON.
ghost use Rattle.std.specs.Prelude.{◌≡◌, ◌++◌, false, codes, map, take, string_bytes, IfOk};
ghost use Rattle.serde_json.specs.View.{view};
ghost use Rattle.serde_json.specs.Written.{compact_text, has_float};
ghost use Rattle.rma_report.specs.ReportJson.{finding_value, other_value, report_json, report_object, report_value, strict_value, verdict_word};

use crate::finding::{Finding, Findings};
use crate::pair_json::pair_value;
use crate::strict::StrictFault;
use rma_base::{EpochReason, LineNo, Memory, Rank};
use rma_call::MatchFault;
use serde_json::{Value, json};
use std::alloc::{AllocError, Global};

/// The report on these findings as one line of JSON, with at most `limit` of the findings.
///
/// # Errors
///
/// `Memory` where there is none left.
pub fn json_text(alloc: Global, findings: &Findings, limit: u64) -> Result<Vec<u8>, Memory>
    ensures { IfOk result (λ text. text.items ≡ report_json findings.now.ranks findings.now.lines findings.now.list limit) }
{
    let report = report_value(alloc, findings, limit)?;
    let line = ended(compact(alloc, &report)?)?;
    Ok(line.into_bytes())
}

/// The text of a value without spaces.
fn compact(alloc: Global, value: &Value) -> Result<String, Memory>
    requires { has_float (view value.now) ≡ false }
    ensures { IfOk result (λ text. string_bytes text ≡ compact_text (view value.now)) }
{
    Ok(value.to_string(alloc)?)
}

/// The text with a line feed behind it.
fn ended(mut text: String) -> Result<String, Memory>
    ensures { IfOk result (λ line. string_bytes line ≡ string_bytes text ++ codes "\n") }
{
    text.push('\n')?;
    Ok(text)
}

/// The report as one value.
fn report_value(alloc: Global, findings: &Findings, limit: u64) -> Result<Value, Memory>
    ensures { IfOk result (λ value. view value ≡ report_value findings.now.ranks findings.now.lines findings.now.list limit) }
{
    let found = findings.list.as_slice();
    let total = found.len() as u64;
    let shown = finding_values(alloc, &found[..limit.min(total) as usize])?;
    let numbers = Numbers {
        ranks: findings.ranks,
        lines: findings.lines,
        omitted: total.saturating_sub(limit),
        total,
    };
    Ok(report_object(alloc, shown, numbers)?)
}

/// The numbers of a report.
#[derive(Clone, Copy)]
struct Numbers {
    /// The logs.
    ranks: u32,
    /// Their lines.
    lines: u64,
    /// The findings that are left out.
    omitted: u64,
    /// All findings.
    total: u64,
}

/// A report of these values of findings and these numbers.
fn report_object(alloc: Global, findings: Vec<Value>, numbers: Numbers) -> Result<Value, AllocError>
    ensures { IfOk result (λ value. view value ≡ report_object (map view findings.items) numbers.lines numbers.omitted numbers.ranks numbers.total (verdict_word numbers.total)) }
{
    let verdict = verdict_word(numbers.total);
    json!(in alloc; {
        "findings": Value::Array(findings),
        "lines": numbers.lines,
        "omitted": numbers.omitted,
        "ranks": numbers.ranks,
        "total": numbers.total,
        "verdict": verdict,
    })
}

/// The word of the verdict.
fn verdict_word(found: u64) -> &'static str
    ensures { result.now ≡ verdict_word found }
{
    if found == 0 { "clean" } else { "findings" }
}

/// The values of some findings.
fn finding_values(alloc: Global, found: &[Finding]) -> Result<Vec<Value>, Memory>
    ensures { IfOk result (λ values. map view values.items ≡ map finding_value found.now) }
{
    let mut values = Vec::new(alloc);
    for finding in found {
        values.push(finding_value(alloc, finding)?)?;
    }
    Ok(values)
}

/// The value of a finding.
fn finding_value(alloc: Global, finding: &Finding) -> Result<Value, Memory>
    ensures { IfOk result (λ value. view value ≡ finding_value finding.now) }
{
    match finding {
        Finding::Malformed { rank, line, reason } => {
            let value = json!(in alloc; {
                "kind": "malformed",
                "line": line.0,
                "rank": rank.0,
                "reason": reason.word(),
            })?;
            Ok(value)
        }
        Finding::Mismatch(fault) => mismatch_value(alloc, fault),
        Finding::Impossible { rank, line } => {
            let value = json!(in alloc; {
                "kind": "impossible",
                "line": line.0,
                "rank": rank.0,
            })?;
            Ok(value)
        }
        Finding::Epoch { rank, line, reason } => epoch_value(alloc, *rank, *line, *reason),
        Finding::Pair(pair) => pair_value(alloc, pair),
        Finding::Strict(fault) => strict_value(alloc, fault),
    }
}

/// The value of a call without its match.
fn mismatch_value(alloc: Global, fault: &MatchFault) -> Result<Value, Memory>
    ensures { IfOk result (λ value. view value ≡ finding_value (Finding.Mismatch fault.now)) }
{
    let value = json!(in alloc; {
        "kind": "mismatch",
        "line": fault.line.0,
        "other": other_value(alloc, fault.other)?,
        "rank": fault.rank.0,
        "reason": fault.reason.word(),
    })?;
    Ok(value)
}

/// The value of a fault that a strict audit finds.
fn strict_value(alloc: Global, fault: &StrictFault) -> Result<Value, Memory>
    ensures { IfOk result (λ value. view value ≡ strict_value fault.now) }
{
    let value = json!(in alloc; {
        "kind": "strict",
        "line": fault.line.0,
        "other": other_value(alloc, fault.other)?,
        "rank": fault.rank.0,
        "reason": fault.reason.word(),
    })?;
    Ok(value)
}

/// The value of a call outside the epochs that allow it.
fn epoch_value(
    alloc: Global,
    rank: Rank,
    line: LineNo,
    reason: EpochReason,
) -> Result<Value, Memory>
    ensures { IfOk result (λ value. view value ≡ finding_value (Finding.Epoch rank line reason)) }
{
    let value = json!(in alloc; {
        "kind": "epoch",
        "line": line.0,
        "rank": rank.0,
        "reason": reason.word(),
    })?;
    Ok(value)
}

/// The value of the other call, where there is one.
fn other_value(alloc: Global, other: Option<(Rank, LineNo)>) -> Result<Value, Memory>
    ensures { IfOk result (λ value. view value ≡ other_value other) }
{
    let Some((rank, line)) = other else {
        return Ok(Value::Null);
    };
    let value = json!(in alloc; {"line": line.0, "rank": rank.0})?;
    Ok(value)
}
