//! Calls that fail, and what is kept of the report then.
use crate::answer::{Answer, word_of};
use crate::names::audit_of;
use crate::order::Order;
use crate::run::answered;
use rma_table::Failure;

/// Which calls fail.
#[derive(Clone, Copy)]
pub struct Faults<'a> {
    /// The calls of the source, by their numbers from 0, counted over opens and pulls.
    pub reads: &'a [u32],
    /// The puts of the sink, each by its number from 0 and with how many bytes it keeps at most.
    pub writes: &'a [(u32, u32)],
}

impl Faults<'_> {
    /// None fails.
    pub fn none() -> Faults<'static> {
        Faults {
            reads: &[],
            writes: &[],
        }
    }
}

/// Prints how an audit of some logs ends where some calls fail, and how many bytes of the report are written then.
///
/// # Errors
///
/// `Row` where there are too many logs, and `Memory` where there is none left.
pub fn print_with(rt: HostRuntime, logs: &[String], faults: Faults<'_>) -> Result<(), Failure> {
    let words = audit_of(rt.alloc(), logs.len())?;
    let whole = answered(rt.alloc(), &words, logs, Order::RankByRank, Faults::none())?;
    let some = answered(rt.alloc(), &words, logs, Order::RankByRank, faults)?;
    print_kept(rt, &some, &whole)
}

/// Prints how a run ended, and how much it wrote of the report of one without faults.
fn print_kept(rt: HostRuntime, some: &Answer, whole: &Answer) -> Result<(), Failure> {
    let word = word_of(some.status);
    if !whole.text.starts_with(some.text.as_str()) {
        println!(rt; "= {word}, and other bytes than those of the report")?;
        return Ok(());
    }
    println!(rt;
        "= {word}, {} of {} bytes of the report",
        some.text.len(),
        whole.text.len()
    )?;
    Ok(())
}
