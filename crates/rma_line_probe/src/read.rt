//! Reading the logs of rows.
ghost use Rattle.std.specs.Prelude.{◌≡◌, false};

use crate::given::GivenLog;
use rma_base::limits::FED;
use rma_book::{BookEnd, FormFault, RankBook};
use rma_table::Failure;
use std::alloc::Global;
use std::io;

/// The outcome of a log that comes in pieces of a size.
///
/// # Errors
///
/// `Row` where the log is longer than one may be, and `Memory` where there is none left.
pub fn end_in_pieces(alloc: Global, log: &GivenLog, size: usize) -> Result<BookEnd, Failure> {
    let mut book = RankBook::new(alloc, log.rank, log.ranks)?;
    feed_pieces(&mut book, &log.bytes, size)?;
    Ok(book.end()?)
}

/// Feeds a book a text in pieces of a size.
fn feed_pieces(book: &mut RankBook, text: &[u8], size: usize) -> Result<(), Failure>
    requires { book.old.text.closed ≡ false }
{
    'pieces: for piece in text.chunks(size.max(1)) {
        feed(book, piece)?;
    }
    Ok(())
}

/// The outcome of a log, whose pieces come one by one; behind each is printed what is known.
///
/// # Errors
///
/// `Row` where the log is longer than one may be, and `Memory` where there is none left.
pub fn end_by_stops(rt: HostRuntime, log: &GivenLog) -> Result<BookEnd, Failure> {
    let mut book = RankBook::new(rt.alloc(), log.rank, log.ranks)?;
    feed_to_stops(rt, &mut book, log)?;
    Ok(book.end()?)
}

/// Feeds a book all pieces of a log.
fn feed_to_stops(rt: HostRuntime, book: &mut RankBook, log: &GivenLog) -> Result<(), Failure>
    requires { book.old.text.closed ≡ false }
{
    let mut start = 0;
    'stops: for stop in log.stops.as_slice() {
        feed_part(book, &log.bytes, start, *stop)?;
        print_known(rt, book)?;
        start = *stop;
    }
    feed_part(book, &log.bytes, start, log.bytes.len())
}

/// Feeds a book a part of a text.
fn feed_part(book: &mut RankBook, text: &[u8], start: usize, end: usize) -> Result<(), Failure>
    requires { book.old.text.closed ≡ false }
    ensures { book.new.text.closed ≡ false }
{
    match text.get(start..end) {
        Some(piece) => feed(book, piece),
        None => Err(Failure::Row),
    }
}

/// Feeds a book a piece of a log.
fn feed(book: &mut RankBook, piece: &[u8]) -> Result<(), Failure>
    requires { book.old.text.closed ≡ false }
    ensures { book.new.text.closed ≡ false }
{
    if piece.len() as u64 > FED - book.fed() {
        return Err(Failure::Row);
    }
    Ok(book.feed(piece)?)
}

/// Prints what a book knows: how many bytes it was fed, how many lines these have, how many calls the good ones of them record, whether
/// the end is among them, and the first bad one.
fn print_known(rt: HostRuntime, book: &RankBook) -> io::Result<()> {
    print!(rt;
        "= {} bytes {} lines {} calls",
        book.fed(),
        book.lines(),
        book.read_calls().len()
    )?;
    if book.ended() {
        print!(rt; " ended")?;
    }
    if let Some(fault) = book.state() {
        print!(rt; " ")?;
        print_fault(rt, fault)?;
    }
    println!(rt; "")
}

/// Prints the first bad line of a log.
pub fn print_fault(rt: HostRuntime, fault: FormFault) -> io::Result<()> {
    print!(rt; "bad {} {}", fault.line.0, fault.reason.word())
}
