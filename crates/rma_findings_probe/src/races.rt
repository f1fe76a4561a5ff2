//! The races of a run, as lines of an answer.
use rma_bytes::Runs;
use rma_finding::FoundRace;
use rma_rows::print_named;
use std::io;

/// Prints races.
pub fn print_all(rt: HostRuntime, races: &[FoundRace]) -> io::Result<()> {
    for race in races {
        print_race(rt, race)?;
    }
    Ok(())
}

/// Prints how many races there are, and the first one.
pub fn print_counted(rt: HostRuntime, races: &[FoundRace]) -> io::Result<()> {
    println!(rt; "= {} races", races.len())?;
    match races.first() {
        Some(race) => print_race(rt, race),
        None => Ok(()),
    }
}

/// Prints a race: the two accesses, the rule by which they conflict, and in whose memory they share which bytes.
fn print_race(rt: HostRuntime, race: &FoundRace) -> io::Result<()> {
    print!(rt; "= ")?;
    print_named(rt, race.first, race.first_site.as_ref())?;
    print!(rt; " ")?;
    print_named(rt, race.second, race.second_site.as_ref())?;
    print!(rt; " {} on {} bytes", race.rule.word(), race.memory.0)?;
    print_common(rt, &race.bytes)?;
    println!(rt; "")
}

/// Prints the bytes that two accesses share.
fn print_common(rt: HostRuntime, bytes: &Runs) -> io::Result<()> {
    if bytes.is_empty() {
        return print!(rt; " none");
    }
    for i in 0..bytes.len() {
        let run = bytes.get(i);
        print!(rt; " {}+{}", run.start, run.len)?;
    }
    Ok(())
}
