//! The logs of a trial, byte for byte.
use rma_gen::TrialLogs;
use rma_io::{Pull, Pulls};
use std::process::Abort;
use std::test::Fail;

/// The logs of two ranks that make two rounds from the first one on.
static LOGS: [&str; 2] = [
    "rma 1 0 2\nwin create W world 4096 4096 4 unified same_op_no_op\nfence W noprecede\nput W 1 0 1 INT 16384 1 INT\nload 4096 1 INT\nfence W\nput W 1 1 1 INT 16388 1 INT\nload 4104 1 INT\nfence W\nwin free W\nend\n",
    "rma 1 1 2\nwin create W world 4096 4096 4 unified same_op_no_op\nfence W noprecede\nput W 0 0 1 INT 16384 1 INT\nload 4100 1 INT\nfence W\nput W 0 1 1 INT 16388 1 INT\nload 4100 1 INT\nfence W\nwin free W\nend\n",
];

/// The next pull gives this answer, with these bytes.
fn check_pull(rt: &impl Abort, logs: &mut TrialLogs, room: &mut [u8; 1000], rank: u32, text: &str) {
    let wanted = Pull::Bytes {
        rank,
        len: text.len(),
    };
    assert!(rt; logs.pull(room) == Ok(wanted));
    assert!(rt; text.len() <= room.len() && &room[..text.len()] == text.as_bytes());
}

#[test]
fn logs_of_a_trial_are_the_stated_lines(rt: HostRuntime) -> Result<(), Fail> {
    let mut logs = TrialLogs::new(2, 2, 0);
    let mut room = [0; 1000];
    check_pull(&rt, &mut logs, &mut room, 0, LOGS[0]);
    check_pull(&rt, &mut logs, &mut room, 1, LOGS[1]);
    assert!(rt; logs.pull(&mut room) == Ok(Pull::Done));
    Ok(())
}
