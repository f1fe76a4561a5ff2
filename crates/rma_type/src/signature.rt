//! Signatures as runs of equal basic datatypes.
ghost use Rattle.std.specs.Prelude.{◌≡◌, ◌+◌, ◌*◌, ◌^◌, ◌<◌, ◌++◌, [], ◌∷◌, length, OnOk, OnErr, IfOk};
ghost use Rattle.rma_typemap.specs.Signature.{copies};
ghost use Rattle.rma_type.specs.Signature.{basics_of, spread, AreRuns, IsRunsOf};

use crate::sig_run::SigRun;
use rma_base::Memory;
use rma_datatype::Basic;
use std::alloc::Global;

/// The signature of a basic datatype.
pub(crate) fn single(alloc: Global, basic: Basic) -> Result<Vec<SigRun>, Memory>
    ensures { IfOk result (λ runs. IsRunsOf (basic ∷ []) runs.items) }
{
    let mut runs = Vec::new(alloc);
    runs.push(SigRun { basic, count: 1 })?;
    Ok(runs)
}

/// Puts a signature after others, and says its number.
pub(crate) fn keep(signatures: &mut Vec<Vec<SigRun>>, runs: Vec<SigRun>) -> Result<usize, Memory>
    ensures number { IfOk result (λ i. i ≡ length signatures.old.items) }
    ensures ok { OnOk result (signatures.new.items ≡ signatures.old.items ++ runs ∷ []) }
    ensures err { OnErr result (signatures.new.items ≡ signatures.old.items) }
{
    let number = signatures.len();
    signatures.push(runs)?;
    Ok(number)
}

/// Puts a run after others: as a part of the last one, where that has the same basic datatype.
fn push(runs: &mut Vec<SigRun>, run: SigRun) -> Result<(), Memory>
    requires apart { AreRuns runs.old.items }
    requires some { 0 < run.count }
    requires few { length (spread runs.old.items) + run.count < 2 ^ 63 }
    ensures same { OnOk result (spread runs.new.items ≡ spread runs.old.items ++ basics_of run) }
    ensures apart { OnOk result (AreRuns runs.new.items) }
{
    let n = runs.len();
    if n > 0 && runs[n - 1].basic == run.basic {
        runs[n - 1].count += run.count;
        return Ok(());
    }
    runs.push(run)?;
    Ok(())
}

/// Puts runs after others.
fn append(done: &mut Vec<SigRun>, runs: &[SigRun]) -> Result<(), Memory>
    requires done_apart { AreRuns done.old.items }
    requires apart { AreRuns runs.now }
    requires few { length (spread done.old.items) + length (spread runs.now) < 2 ^ 63 }
    ensures same { OnOk result (spread done.new.items ≡ spread done.old.items ++ spread runs.now) }
    ensures apart { OnOk result (AreRuns done.new.items) }
{
    for run in runs {
        push(done, *run)?;
    }
    Ok(())
}

/// Puts `count` copies of runs after others.
pub(crate) fn append_copies(
    done: &mut Vec<SigRun>,
    runs: &[SigRun],
    count: u64,
) -> Result<(), Memory>
    requires done_apart { AreRuns done.old.items }
    requires apart { AreRuns runs.now }
    requires few { length (spread done.old.items) + count * length (spread runs.now) < 2 ^ 63 }
    ensures same { OnOk result (spread done.new.items ≡ spread done.old.items ++ copies count (spread runs.now)) }
    ensures apart { OnOk result (AreRuns done.new.items) }
{
    match runs {
        [] => Ok(()),
        [run] => append_run(done, *run, count),
        _ => append_all(done, runs, count),
    }
}

/// Puts `count` copies of a run after others, as one run.
fn append_run(done: &mut Vec<SigRun>, run: SigRun, count: u64) -> Result<(), Memory>
    requires done_apart { AreRuns done.old.items }
    requires some { 0 < run.count }
    requires few { length (spread done.old.items) + count * run.count < 2 ^ 63 }
    ensures same { OnOk result (spread done.new.items ≡ spread done.old.items ++ copies count (basics_of run)) }
    ensures apart { OnOk result (AreRuns done.new.items) }
{
    if count == 0 {
        return Ok(());
    }
    let whole = SigRun {
        basic: run.basic,
        count: count * run.count,
    };
    push(done, whole)
}

/// Puts `count` copies of runs after others, one after another.
fn append_all(done: &mut Vec<SigRun>, runs: &[SigRun], count: u64) -> Result<(), Memory>
    requires done_apart { AreRuns done.old.items }
    requires apart { AreRuns runs.now }
    requires few { length (spread done.old.items) + count * length (spread runs.now) < 2 ^ 63 }
    ensures same { OnOk result (spread done.new.items ≡ spread done.old.items ++ copies count (spread runs.now)) }
    ensures apart { OnOk result (AreRuns done.new.items) }
{
    for _copy in 0..count {
        append(done, runs)?;
    }
    Ok(())
}
