//! Copies of pieces of bytes.
ghost use Rattle.std.specs.Prelude.{◌≡◌, ◌+◌, ◌≤◌, ◌++◌, length, take, drop};

/// Copies the piece to the start of the room.
pub fn copy_to_start(room: &mut [u8], piece: &[u8])
    requires { length piece.now ≤ length room.old }
    ensures { room.new ≡ piece.now ++ drop (length piece.now) room.old }
{
    let start = &mut room[..piece.len()];
    start.copy_from_slice(piece);
}

/// Copies the piece into the room from `at` on.
pub fn copy_from(room: &mut [u8], at: usize, piece: &[u8])
    requires { at + length piece.now ≤ length room.old }
    ensures { room.new ≡ take at room.old ++ (piece.now ++ drop (at + length piece.now) room.old) }
{
    let rest = &mut room[at..];
    copy_to_start(rest, piece);
}
