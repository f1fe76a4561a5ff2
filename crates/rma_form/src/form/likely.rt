//! Which form a line has by the looks of its verb, so that few forms are compared with it. Whoever asks compares the one that
//! is answered; no answer depends on it.
use super::LineForm;

/// The form that a line with this verb, and this word behind it, most likely has.
pub(crate) fn likely(verb: &[u8], kind: Option<&[u8]>) -> Option<LineForm> {
    let form = match verb.len() {
        3 if verb[0] == b'w' => return likely_of_window(kind),
        3 => likely_of_three(verb[0]),
        4 if verb[0] == b't' => return likely_of_type(kind),
        4 => likely_of_four(verb[0], verb[1], verb[2]),
        5 => likely_of_five(verb[0], verb[1], verb[2]),
        6 => likely_of_six(verb[0], verb[1]),
        7 => likely_of_seven(verb[0]),
        8 => likely_of_eight(verb[0]),
        9 => likely_of_nine(verb[0], verb[3]),
        10 => LineForm::FlushLocal,
        13 => LineForm::FlushLocalAll,
        _ => return None,
    };
    Some(form)
}

fn likely_of_window(kind: Option<&[u8]>) -> Option<LineForm> {
    match kind {
        Some(kind) if kind.len() == 4 => Some(LineForm::Free),
        Some(kind) if kind.len() == 6 => Some(LineForm::Create),
        Some(_) => Some(LineForm::Dynamic),
        None => None,
    }
}

fn likely_of_type(kind: Option<&[u8]>) -> Option<LineForm> {
    let Some(kind) = kind else {
        return None;
    };
    let form = match kind.len() {
        4 => LineForm::FreeType,
        6 if kind[0] == b'v' => LineForm::Vector,
        6 if kind[0] == b's' => LineForm::Struct,
        6 => LineForm::Commit,
        7 if kind[0] == b'h' => LineForm::Hvector,
        7 if kind[0] == b'i' => LineForm::Indexed,
        7 => LineForm::Resized,
        8 if kind[0] == b'h' => LineForm::Hindexed,
        8 => LineForm::Subarray,
        10 => LineForm::Contiguous,
        13 => LineForm::IndexedBlock,
        _ => return None,
    };
    Some(form)
}

fn likely_of_three(first: u8) -> LineForm {
    match first {
        b'p' => LineForm::Put,
        b'g' => LineForm::Get,
        b'a' => LineForm::Accumulate,
        b'f' => LineForm::FetchAndOp,
        b'c' => LineForm::CompareAndSwap,
        b'r' => LineForm::Header,
        _ => LineForm::End,
    }
}

fn likely_of_four(first: u8, second: u8, third: u8) -> LineForm {
    match first {
        b'c' => LineForm::Comm,
        b'r' => likely_of_request(second),
        b'w' => LineForm::Wait,
        b'p' if third == b'l' => LineForm::Poll,
        b'p' => LineForm::Post,
        b'l' if third == b'a' => LineForm::Load,
        b'l' => LineForm::Lock,
        _ if second == b'y' => LineForm::Sync,
        _ => LineForm::Send,
    }
}

fn likely_of_request(second: u8) -> LineForm {
    match second {
        b'p' => LineForm::Rput,
        b'g' => LineForm::Rget,
        b'a' => LineForm::Raccumulate,
        _ => LineForm::Recv,
    }
}

fn likely_of_five(first: u8, second: u8, third: u8) -> LineForm {
    match first {
        b'i' if second == b's' => LineForm::Isend,
        b'i' => LineForm::Irecv,
        b'f' if second == b'e' => LineForm::Fence,
        b'f' => LineForm::Flush,
        b's' if third == b'o' => LineForm::Store,
        b's' => LineForm::Start,
        _ => LineForm::Bcast,
    }
}

fn likely_of_six(first: u8, second: u8) -> LineForm {
    match first {
        b'u' => LineForm::Unlock,
        b'a' => LineForm::Attach,
        b'd' => LineForm::Detach,
        b'g' if second == b'e' => LineForm::GetAccumulate,
        b'g' => LineForm::Gather,
        _ => LineForm::Reduce,
    }
}

fn likely_of_seven(first: u8) -> LineForm {
    match first {
        b'b' => LineForm::Barrier,
        b'e' => LineForm::Expwait,
        b'l' => LineForm::LockAll,
        b'r' => LineForm::RgetAccumulate,
        _ => LineForm::Scatter,
    }
}

fn likely_of_eight(first: u8) -> LineForm {
    match first {
        b'c' => LineForm::Complete,
        b'f' => LineForm::FlushAll,
        _ => LineForm::Alltoall,
    }
}

fn likely_of_nine(first: u8, fourth: u8) -> LineForm {
    match first {
        b'u' => LineForm::UnlockAll,
        _ if fourth == b'r' => LineForm::Allreduce,
        _ => LineForm::Allgather,
    }
}
