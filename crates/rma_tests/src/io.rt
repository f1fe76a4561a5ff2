//! Sources and sinks in memory.
ghost use Rattle.std.specs.Prelude.{◌≡◌, ◌≤◌, ◌<◌, ◌+◌, ◌*◌, ◌^◌, [], IfOk, length};

use rma_io::{
    Failed, Logs, MemoryLogs, MemorySink, OpenFault, Pull, Pulls, Sink, SureLogs, SureSink,
};
use std::alloc::{AllocError, Global};
use std::process::Abort;
use std::str::from_utf8;
use std::test::Fail;

/// What a pull into a room of this size answers, as `1:abc` for these bytes of rank 1.
fn pulled<P: Pulls>(alloc: Global, source: &mut P, size: usize) -> Result<String, AllocError>
    requires low { 0 < size }
    requires high { size ≤ 8 }
    requires small { (P.source source.old).taken + 8 ≤ 2 ^ 62 }
    ensures { (P.source source.new).taken ≤ (P.source source.old).taken + 8 }
{
    let mut room = [b'.'; 8];
    match source.pull(&mut room[..size]) {
        Err(Failed) => String::from_str(alloc, "failed"),
        Ok(Pull::Done) => String::from_str(alloc, "done"),
        Ok(Pull::Bytes { rank, len }) => {
            let text = from_utf8(&room[..len]).unwrap_or("?");
            format!(in alloc; "{rank}:{text}")
        }
    }
}

fn check_pulls<P: Pulls>(
    rt: &impl Abort,
    alloc: Global,
    source: &mut P,
    wants: &[(usize, &str)],
) -> Result<(), AllocError>
    requires { (P.source source.old).taken + 8 * length wants.now ≤ 2 ^ 62 }
{
    for want in wants {
        assert!(rt; 0 < want.0 && want.0 <= 8);
        let answer = pulled(alloc, source, want.0)?;
        assert_eq!(rt; answer.as_str(), want.1);
    }
    Ok(())
}

fn check_opens<L: Logs>(rt: &impl Abort, source: &mut L, wants: &[(&str, Result<(), OpenFault>)])
    requires { length (L.opened source.old).names + length wants.now < 2 ^ 32 }
    ensures { (L.source source.new).taken ≡ (L.source source.old).taken }
{
    for want in wants {
        let answer = source.open(want.0);
        assert_eq!(rt; answer, want.1);
    }
}

fn file(alloc: Global, name: &str, text: &str) -> Result<(String, Vec<u8>), AllocError> {
    let name = String::from_str(alloc, name)?;
    let bytes = text.as_bytes().to_vec(alloc)?;
    Ok((name, bytes))
}

/// Two files, of six and of three bytes, that are read by these pairs, with the calls of these numbers failing.
fn two_files(alloc: Global, cuts: &[(u32, u32)], fails: &[u32]) -> Result<MemoryLogs, AllocError>
    ensures { IfOk result (λ source. (source.logs ≡ []) × (source.taken ≡ 0)) }
{
    let mut files = Vec::new(alloc);
    files.push(file(alloc, "a", "abcdef")?)?;
    files.push(file(alloc, "b", "xyz")?)?;
    let cuts = cuts.to_vec(alloc)?;
    let fails = fails.to_vec(alloc)?;
    Ok(MemoryLogs::new(alloc, files, cuts, fails))
}

/// How two files are read: the cuts, the numbers of the calls that fail, what is opened and what each open answers, and the
/// sizes of the rooms with what each pull answers.
struct Reading {
    cuts: &'static [(u32, u32)],
    fails: &'static [u32],
    opens: &'static [(&'static str, Result<(), OpenFault>)],
    pulls: &'static [(usize, &'static str)],
}

static READINGS: [Reading; 3] = [
    // By the cuts, and then from the lowest rank.
    Reading {
        cuts: &[(1, 2), (0, 0), (5, 3), (0, 9), (1, 1), (1, 4)],
        fails: &[],
        opens: &[("a", Ok(())), ("b", Ok(()))],
        pulls: &[
            (4, "1:xy"),
            (4, "0:a"),
            (4, "0:bcde"),
            (4, "1:z"),
            (4, "0:f"),
            (4, "done"),
            (4, "done"),
        ],
    },
    // A file that is named twice is two logs.
    Reading {
        cuts: &[(1, 2)],
        fails: &[],
        opens: &[("b", Ok(())), ("b", Ok(()))],
        pulls: &[(8, "1:xy"), (8, "0:xyz"), (8, "1:z"), (8, "done")],
    },
    // Calls that fail are counted over opens and pulls.
    Reading {
        cuts: &[],
        fails: &[1, 4, 6],
        opens: &[
            ("a", Ok(())),
            ("b", Err(OpenFault::Failed)),
            ("c", Err(OpenFault::Failed)),
            ("b", Ok(())),
        ],
        pulls: &[
            (8, "failed"),
            (8, "0:abcdef"),
            (8, "failed"),
            (2, "1:xy"),
            (2, "1:z"),
            (2, "done"),
        ],
    },
];

fn check_reading(rt: &impl Abort, alloc: Global, reading: &Reading) -> Result<(), AllocError> {
    assert!(rt; reading.opens.len() < 100 && reading.pulls.len() < 100);
    let mut source = two_files(alloc, reading.cuts, reading.fails)?;
    check_opens(rt, &mut source, reading.opens);
    check_pulls(rt, alloc, &mut source, reading.pulls)
}

#[test]
fn files_are_read_as_their_cuts_and_faults_say(rt: HostRuntime) -> Result<(), Fail> {
    for reading in &READINGS {
        check_reading(&rt, rt.alloc(), reading)?;
    }
    Ok(())
}

#[test]
fn sure_logs_are_opened_in_order_whatever_the_name(rt: HostRuntime) -> Result<(), Fail> {
    let alloc = rt.alloc();
    let logs = vec![in alloc; b"ab".to_vec(alloc)?, b"c".to_vec(alloc)?]?;
    let cuts = vec![in alloc; (2, 1), (1, 7)]?;
    let mut source = SureLogs::new(alloc, logs, cuts);
    let opens = [("x", Ok(())), ("x", Ok(())), ("y", Ok(()))];
    check_opens(&rt, &mut source, &opens);
    let wants = [(3, "1:c"), (3, "0:ab"), (3, "done")];
    check_pulls(&rt, alloc, &mut source, &wants)?;
    Ok(())
}

/// Pieces, what the put of each answers, and what the sink has kept then.
type Puts = &'static [(&'static str, Result<(), Failed>, &'static [u8])];

/// Those of a sink of eight bytes, of whose puts the second and the fourth fail.
static PUTS: Puts = &[
    ("ab", Ok(()), b"ab"),
    ("cdef", Err(Failed), b"abcd"),
    ("", Ok(()), b"abcd"),
    ("gh", Err(Failed), b"abcdgh"),
    ("ijk", Ok(()), b"abcdghij"),
];

/// Those of a sink of four bytes, of whose puts none fails.
static SURE_PUTS: Puts = &[
    ("", Ok(()), b""),
    ("abc", Ok(()), b"abc"),
    ("def", Ok(()), b"abcd"),
    ("g", Ok(()), b"abcd"),
];

#[test]
fn a_sink_keeps_what_fits_and_fails_where_that_is_planned(rt: HostRuntime) -> Result<(), Fail> {
    let alloc = rt.alloc();
    let fails = vec![in alloc; (1, 2), (1, 0), (3, 9)]?;
    let mut sink = MemorySink::new(vec![in alloc; 0u8; 8]?, fails);
    for (piece, want, kept) in PUTS {
        let answer = sink.put(piece.as_bytes());
        assert!(rt; answer == *want && sink.kept() == *kept, "at {piece}");
    }
    Ok(())
}

#[test]
fn a_sure_sink_keeps_what_fits(rt: HostRuntime) -> Result<(), Fail> {
    let mut sink = SureSink::new(vec![in rt.alloc(); 7u8; 4]?);
    for (piece, want, kept) in SURE_PUTS {
        let answer = sink.put(piece.as_bytes());
        assert!(rt; answer == *want && sink.kept() == *kept, "at {piece}");
    }
    Ok(())
}
