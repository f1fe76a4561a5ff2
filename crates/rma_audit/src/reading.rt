//! The loop that reads the logs.
ghost use Rattle.std.specs.Prelude.{◌≡◌, ◌+◌, ◌<◌, ◌≤◌, length, OnOk, IfOk, IfErr, IfSome, IfNone};
ghost use Rattle.rma_audit.specs.inside.Progress.{AfterPulls, FollowsSource, StopsAt};
ghost use Rattle.rma_io.specs.Source.{AreRead};

use crate::stop::Stop;
use rma_base::Rank;
use rma_base::limits::BYTES;
use rma_io::{Pull, Pulls};
use rma_stream::Audit;

/// Reads all logs to their ends, in whatever pieces they come.
pub(crate) fn read_all<P: Pulls>(
    logs: &mut P,
    room: &mut [u8],
    audit: &mut Audit,
) -> Result<(), Stop>
    requires some_room { 0 < length room.old }
    requires room { length room.old ≤ 65536 }
    requires none_taken { (P.source logs.old).taken ≡ 0 }
    requires follows { FollowsSource (P.source logs.old) audit.old }
    ensures follows { OnOk result (FollowsSource (P.source logs.new) audit.new) }
    ensures read { OnOk result (AreRead (P.source logs.new).logs) }
    ensures taken { OnOk result ((P.source logs.new).taken ≤ BYTES) }
    ensures stops { IfErr result (λ stop. StopsAt stop (P.source logs.old) (P.source logs.new)) }
    ensures stays { AfterPulls P.stays logs.old logs.new }
{
    let mut taken = 0;
    'pieces: while let Some(so_far) = read_piece(logs, room, audit, taken)? {
        taken = so_far;
    }
    Ok(())
}

// Reads the next piece of one of the logs. It answers how many bytes were taken so far, or nothing where all logs
// were read.
fn read_piece<P: Pulls>(
    logs: &mut P,
    room: &mut [u8],
    audit: &mut Audit,
    taken: u64,
) -> Result<Option<u64>, Stop>
    requires some_room { 0 < length room.old }
    requires room { length room.old ≤ 65536 }
    requires taken { (P.source logs.old).taken ≡ taken }
    requires few { taken ≤ BYTES }
    requires follows { FollowsSource (P.source logs.old) audit.old }
    ensures follows { OnOk result (FollowsSource (P.source logs.new) audit.new) }
    ensures more { IfOk result (λ more. IfSome more (λ so_far. ((P.source logs.new).taken ≡ so_far) × (taken < so_far) × (so_far ≤ BYTES))) }
    ensures done { IfOk result (λ more. IfNone more (((P.source logs.new).taken ≡ taken) × AreRead (P.source logs.new).logs)) }
    ensures stops { IfErr result (λ stop. StopsAt stop (P.source logs.old) (P.source logs.new)) }
    ensures faults { (P.source logs.old).faults ≤ (P.source logs.new).faults }
    ensures stays { P.stays logs.old logs.new }
{
    match logs.pull(room) {
        Err(_) => Err(Stop::Fault),
        Ok(Pull::Done) => Ok(None),
        Ok(Pull::Bytes { rank, len }) => {
            let so_far = taken + len as u64;
            if so_far > BYTES {
                return Err(Stop::TooLarge { bytes: so_far });
            }
            audit.feed(Rank(rank), &room[..len])?;
            Ok(Some(so_far))
        }
    }
}
