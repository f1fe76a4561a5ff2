//! Findings of pairs as JSON.
ghost use Rattle.std.specs.Prelude.{◌≡◌, map, IfOk};
ghost use Rattle.serde_json.specs.View.{view};
ghost use Rattle.rma_report.specs.ReportJson.{access_value, bytes_value, doubled_value, exposed_value, pair_value, race_value, run_value, site_value};

use rma_base::{Memory, Site};
use rma_bytes::{Run, Runs};
use rma_finding::{DoubledPost, ExposedLock, FoundRace, PairFinding};
use rma_rules::AccessName;
use serde_json::{Value, json};
use std::alloc::Global;

/// The value of a finding of a pair.
pub fn pair_value(alloc: Global, pair: &PairFinding) -> Result<Value, Memory>
    ensures { IfOk result (λ value. view value ≡ pair_value pair.now) }
{
    match pair {
        PairFinding::Race(race) => race_value(alloc, race),
        PairFinding::Exposed(found) => exposed_value(alloc, found),
        PairFinding::Doubled(found) => doubled_value(alloc, found),
    }
}

/// The value of two accesses that race.
fn race_value(alloc: Global, race: &FoundRace) -> Result<Value, Memory>
    ensures { IfOk result (λ value. view value ≡ race_value race.now) }
{
    let value = json!(in alloc; {
        "bytes": bytes_value(alloc, &race.bytes)?,
        "first": access_value(alloc, race.first, &race.first_site)?,
        "kind": "race",
        "on": race.memory.0,
        "rule": race.rule.word(),
        "second": access_value(alloc, race.second, &race.second_site)?,
    })?;
    Ok(value)
}

/// The value of an access.
fn access_value(alloc: Global, name: AccessName, site: &Option<Site>) -> Result<Value, Memory>
    ensures { IfOk result (λ value. view value ≡ access_value name site.now) }
{
    let value = json!(in alloc; {
        "line": name.line.0,
        "rank": name.rank.0,
        "role": name.role.word(),
        "site": site_value(alloc, site)?,
    })?;
    Ok(value)
}

/// The value of the site of a call.
fn site_value(alloc: Global, site: &Option<Site>) -> Result<Value, Memory>
    ensures { IfOk result (λ value. view value ≡ site_value site.now) }
{
    match site {
        None => Ok(Value::Null),
        Some(site) => Ok(json!(in alloc; site.text())?),
    }
}

/// The value of a set of bytes.
fn bytes_value(alloc: Global, bytes: &Runs) -> Result<Value, Memory>
    ensures { IfOk result (λ value. view value ≡ bytes_value bytes.now) }
{
    Ok(Value::Array(run_values(alloc, bytes)?))
}

/// The values of its runs.
fn run_values(alloc: Global, bytes: &Runs) -> Result<Vec<Value>, Memory>
    ensures { IfOk result (λ values. map view values.items ≡ map run_value bytes.now) }
{
    let mut values = Vec::new(alloc);
    for i in 0..bytes.len() {
        values.push(run_value(alloc, bytes.get(i))?)?;
    }
    Ok(values)
}

/// The value of a run.
fn run_value(alloc: Global, run: Run) -> Result<Value, Memory>
    ensures { IfOk result (λ value. view value ≡ run_value run) }
{
    let value = json!(in alloc; [run.start, run.len])?;
    Ok(value)
}

/// The value of a lock at a target that is exposed.
fn exposed_value(alloc: Global, found: &ExposedLock) -> Result<Value, Memory>
    ensures { IfOk result (λ value. view value ≡ exposed_value found.now) }
{
    let value = json!(in alloc; {
        "kind": "exposed",
        "lock": found.lock.0,
        "opened": found.opened.0,
        "rank": found.rank.0,
        "target": found.target.0,
        "window": found.window.text(),
    })?;
    Ok(value)
}

/// The value of a target that is exposed twice.
fn doubled_value(alloc: Global, found: &DoubledPost) -> Result<Value, Memory>
    ensures { IfOk result (λ value. view value ≡ doubled_value found.now) }
{
    let value = json!(in alloc; {
        "kind": "doubled",
        "opened": found.opened.0,
        "post": found.post.0,
        "target": found.target.0,
        "window": found.window.text(),
    })?;
    Ok(value)
}
