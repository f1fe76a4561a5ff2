//! The lines of findings of pairs.
ghost use Rattle.std.specs.Prelude.{◌++◌, codes, drop};
ghost use Rattle.std.specs.List.{flat_map};
ghost use Rattle.rma_rules.specs.Words.{rule_word};
ghost use Rattle.rma_report.specs.inside.Buffering.{IsBuffered};
ghost use Rattle.rma_report.specs.ReportText.{access_text, doubled_line, exposed_line, later_range_text, pair_line, race_line, range_text, ranges_text, site_text};

use crate::buffer::{TextBuffer, write, write_all};
use crate::report::WriteFault;
use itoa::Buffer;
use rma_base::Site;
use rma_bytes::{Run, Runs};
use rma_finding::{DoubledPost, ExposedLock, FoundRace, PairFinding};
use rma_io::Sink;
use rma_rules::AccessName;

/// Writes the line of a finding of a pair.
pub fn write_pair<S: Sink>(
    out: &mut S,
    buffer: &mut TextBuffer,
    pair: &PairFinding,
) -> Result<(), WriteFault>
    ensures { IsBuffered (S.output out.old) buffer.old.bytes
        (pair_line pair.now)
        result buffer.new.bytes (S.output out.new) }
{
    match pair {
        PairFinding::Race(race) => write_race(out, buffer, race),
        PairFinding::Exposed(found) => write_exposed(out, buffer, found),
        PairFinding::Doubled(found) => write_doubled(out, buffer, found),
    }
}

/// Writes the line of two accesses that race.
fn write_race<S: Sink>(
    out: &mut S,
    buffer: &mut TextBuffer,
    race: &FoundRace,
) -> Result<(), WriteFault>
    ensures { IsBuffered (S.output out.old) buffer.old.bytes
        (race_line race.now)
        result buffer.new.bytes (S.output out.new) }
{
    let mut digits = Buffer::new();
    let memory = digits.format(race.memory.0);
    write_all(
        out,
        buffer,
        &["race ", race.rule.word(), " on ", memory, " "],
    )?;
    write_access(out, buffer, race.first, &race.first_site)?;
    write_access(out, buffer, race.second, &race.second_site)?;
    write_bytes(out, buffer, &race.bytes)
}

/// Writes an access, and a blank.
fn write_access<S: Sink>(
    out: &mut S,
    buffer: &mut TextBuffer,
    name: AccessName,
    site: &Option<Site>,
) -> Result<(), WriteFault>
    ensures { IsBuffered (S.output out.old) buffer.old.bytes
        (access_text name site.now ++ codes " ")
        result buffer.new.bytes (S.output out.new) }
{
    let mut rank_digits = Buffer::new();
    let mut line_digits = Buffer::new();
    write_all(
        out,
        buffer,
        &[
            rank_digits.format(name.rank.0),
            ":",
            line_digits.format(name.line.0),
            ":",
            name.role.word(),
            " ",
        ],
    )?;
    write_site(out, buffer, site)
}

/// Writes the site of a call, where there is one, and a blank.
fn write_site<S: Sink>(
    out: &mut S,
    buffer: &mut TextBuffer,
    site: &Option<Site>,
) -> Result<(), WriteFault>
    ensures { IsBuffered (S.output out.old) buffer.old.bytes
        (site_text site.now ++ codes " ")
        result buffer.new.bytes (S.output out.new) }
{
    match site {
        None => write(out, buffer, "- "),
        Some(site) => write_all(out, buffer, &["@", site.text(), " "]),
    }
}

/// Writes the end of the line of a race: the bytes that both accesses touch.
fn write_bytes<S: Sink>(
    out: &mut S,
    buffer: &mut TextBuffer,
    bytes: &Runs,
) -> Result<(), WriteFault>
    ensures { IsBuffered (S.output out.old) buffer.old.bytes
        (codes "bytes " ++ ranges_text bytes.now ++ codes "\n")
        result buffer.new.bytes (S.output out.new) }
{
    if bytes.is_empty() {
        return write(out, buffer, "bytes none\n");
    }
    write_range(out, buffer, "bytes ", bytes.get(0))?;
    write_later_ranges(out, buffer, bytes)?;
    write(out, buffer, "\n")
}

/// Writes the runs after the first, each behind a comma.
fn write_later_ranges<S: Sink>(
    out: &mut S,
    buffer: &mut TextBuffer,
    bytes: &Runs,
) -> Result<(), WriteFault>
    ensures { IsBuffered (S.output out.old) buffer.old.bytes
        (flat_map later_range_text (drop 1 bytes.now))
        result buffer.new.bytes (S.output out.new) }
{
    for i in 1..bytes.len() {
        match write_range(out, buffer, ",", bytes.get(i)) {
            Ok(()) => {}
            Err(fault) => return Err(fault),
        }
    }
    Ok(())
}

/// Writes a run, behind the text that stands before it.
fn write_range<S: Sink>(
    out: &mut S,
    buffer: &mut TextBuffer,
    before: &str,
    run: Run,
) -> Result<(), WriteFault>
    ensures { IsBuffered (S.output out.old) buffer.old.bytes
        (before.now ++ range_text run)
        result buffer.new.bytes (S.output out.new) }
{
    let mut start_digits = Buffer::new();
    let mut len_digits = Buffer::new();
    write_all(
        out,
        buffer,
        &[
            before,
            start_digits.format(run.start),
            "+",
            len_digits.format(run.len),
        ],
    )
}

/// Writes the line of a lock at a target that is exposed.
fn write_exposed<S: Sink>(
    out: &mut S,
    buffer: &mut TextBuffer,
    found: &ExposedLock,
) -> Result<(), WriteFault>
    ensures { IsBuffered (S.output out.old) buffer.old.bytes
        (exposed_line found.now)
        result buffer.new.bytes (S.output out.new) }
{
    let mut rank_digits = Buffer::new();
    let mut lock_digits = Buffer::new();
    let mut target_digits = Buffer::new();
    let mut opened_digits = Buffer::new();
    write_all(
        out,
        buffer,
        &[
            "exposed ",
            found.window.text(),
            " lock ",
            rank_digits.format(found.rank.0),
            ":",
            lock_digits.format(found.lock.0),
            " target ",
            target_digits.format(found.target.0),
            " opened ",
            opened_digits.format(found.opened.0),
            "\n",
        ],
    )
}

/// Writes the line of a target that is exposed twice.
fn write_doubled<S: Sink>(
    out: &mut S,
    buffer: &mut TextBuffer,
    found: &DoubledPost,
) -> Result<(), WriteFault>
    ensures { IsBuffered (S.output out.old) buffer.old.bytes
        (doubled_line found.now)
        result buffer.new.bytes (S.output out.new) }
{
    let mut target_digits = Buffer::new();
    let mut post_digits = Buffer::new();
    let mut opened_digits = Buffer::new();
    write_all(
        out,
        buffer,
        &[
            "doubled ",
            found.window.text(),
            " target ",
            target_digits.format(found.target.0),
            " post ",
            post_digits.format(found.post.0),
            " opened ",
            opened_digits.format(found.opened.0),
            "\n",
        ],
    )
}
