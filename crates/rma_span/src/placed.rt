//! The epochs in which the accesses of a rank stand, one by one.
ghost use Rattle.std.specs.Prelude.{◌≡◌, ◌<◌, Some, length, IfSome};
ghost use Rattle.rma_epoch.specs.Table.{InOrder, epoch_at};

use rma_epoch::{EpochTable, Placed};

/// The index of the epoch in which the call of a number stands, where it is an access to a target. It is looked for first where the
/// next access is placed; where it is that one, the one behind it is the next.
pub(crate) fn epoch_of(table: &EpochTable, next: &mut usize, number: u32) -> Option<u32>
    ensures { result ≡ epoch_at table.now.placed number }
{
    let Some(epoch) = epoch_there(table.placed(), *next, number) else {
        return table.epoch_of(number);
    };
    *next += 1;
    Some(epoch)
}

/// The index of the epoch in which the access that is placed there stands, if it is the call of this number.
fn epoch_there(placed: &[Placed], there: usize, number: u32) -> Option<u32>
    requires { InOrder placed.now }
    ensures epoch { IfSome result (λ epoch. Some epoch ≡ epoch_at placed.now number) }
    ensures within { IfSome result (λ epoch. there < length placed.now) }
{
    match placed.get(there) {
        Some(access) if access.call == number => Some(access.epoch),
        _ => None,
    }
}
