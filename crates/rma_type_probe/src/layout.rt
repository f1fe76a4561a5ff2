//! The layouts of buffers.
ghost use Rattle.std.specs.Prelude.{◌<◌, ◌≤◌, ◌*◌, ◌≤ℤ◌, pos, length, IsTrue};
ghost use Rattle.rma_base.specs.Limits.{address_limit};
ghost use Rattle.rma_type.specs.Table.{typemap_in, typemaps};
ghost use Rattle.rma_typemap.specs.Bounds.{entry_count};

use crate::integers::{signed, unsigned};
use crate::runs::push_run;
use crate::words::word_and_rest;
use rma_base::FormReason;
use rma_base::limits::SPACE;
use rma_bytes::Layout;
use rma_layout::{LayoutError, LayoutFault, LayoutTable, Space, place};
use rma_table::{Failure, number};
use rma_type::{TypeId, TypeTable};
use std::alloc::Global;

/// A layout of more runs is told by their number, with the first and the last.
const SHOWN: usize = 64;

/// A buffer of a datatype.
#[derive(Clone, Copy)]
pub struct Buffer {
    /// How many copies of the datatype there are.
    count: u32,
    /// Where the first stands.
    address: i64,
    /// How many elements are touched.
    entries: u64,
    /// Where the buffer lies.
    space: Space,
}

impl Buffer {
    /// The buffer that words give: `COUNT ADDRESS ENTRIES local`, or `target` in place of the last.
    ///
    /// # Errors
    ///
    /// `Row` where the words are not these.
    pub fn of(words: &str) -> Result<Buffer, Failure> {
        let (count, rest) = word_and_rest(words);
        let (address, rest) = word_and_rest(rest);
        let (entries, space) = word_and_rest(rest);
        Ok(Buffer {
            count: number(count)?,
            address: signed(address)?,
            entries: unsigned(entries)?,
            space: space_of(space)?,
        })
    }

    /// Whether its layout may be asked for: its address is one, and the copies have as many elements.
    fn may_be_asked(self, types: &TypeTable, id: TypeId) -> bool
        requires { id.0 < length types.now.origins }
        ensures low { IsTrue result → pos 0 ≤ℤ self.address }
        ensures high { IsTrue result → self.address ≤ℤ pos address_limit }
        ensures there { IsTrue result → self.entries ≤ self.count * entry_count (typemap_in (typemaps types.now.origins) id) }
    {
        let there = u64::from(self.count) * types.entries(id);
        self.address >= 0 && self.address <= SPACE as i64 && self.entries <= there
    }
}

/// The space that a word names.
fn space_of(word: &str) -> Result<Space, Failure> {
    match word {
        "local" => Ok(Space::Local),
        "target" => Ok(Space::Target),
        _ => Err(Failure::Row),
    }
}

/// Prints the layout of a buffer of a datatype, or why it has none, as the table answers, which may know it from before; and what is
/// answered anew, where that differs.
///
/// # Errors
///
/// `Row` where there is no such buffer, and `Memory` where there is none left.
pub fn print_layout(
    rt: HostRuntime,
    table: &mut LayoutTable,
    id: TypeId,
    buffer: Buffer,
) -> Result<(), Failure>
    requires { id.0 < length table.old.origins }
{
    let anew = text_anew(table.types(), id, buffer)?;
    let text = text_in(table, id, buffer)?;
    println!(rt; "= {text}")?;
    if text != anew {
        println!(rt; "= anew {anew}")?;
    }
    Ok(())
}

/// What is answered anew.
fn text_anew(types: &TypeTable, id: TypeId, buffer: Buffer) -> Result<String, Failure>
    requires { id.0 < length types.now.origins }
{
    if !buffer.may_be_asked(types, id) {
        return Err(Failure::Row);
    }
    let Buffer {
        count,
        address,
        entries,
        space,
    } = buffer;
    let placed = place(types, id, count, address, entries, space);
    text_of(types.allocator(), &placed)
}

/// What the table answers.
fn text_in(table: &mut LayoutTable, id: TypeId, buffer: Buffer) -> Result<String, Failure>
    requires { id.0 < length table.old.origins }
{
    if !buffer.may_be_asked(table.types(), id) {
        return Err(Failure::Row);
    }
    let Buffer {
        count,
        address,
        entries,
        space,
    } = buffer;
    let placed = table.place(id, count, address, entries, space);
    text_of(table.types().allocator(), &placed)
}

/// The text of a layout, or the word for why there is none.
fn text_of(alloc: Global, placed: &Result<Layout, LayoutError>) -> Result<String, Failure> {
    match placed {
        Ok(layout) => layout_text(alloc, layout),
        Err(LayoutError::Fault(fault)) => Ok(String::from_str(alloc, reason_of(*fault).word())?),
        Err(LayoutError::Memory) => Err(Failure::Memory),
    }
}

/// The reason of a line whose buffer is refused.
fn reason_of(fault: LayoutFault) -> FormReason {
    match fault {
        LayoutFault::TooManyElements => FormReason::TooManyElements,
        LayoutFault::TooManyBlocks => FormReason::TooManyBlocks,
        LayoutFault::OutOfSpace => FormReason::OutOfSpace,
    }
}

/// The text of a layout: its runs, whether elements overlap, and the basic datatype of all.
fn layout_text(alloc: Global, layout: &Layout) -> Result<String, Failure> {
    let mut text = String::new(alloc);
    if layout.len() <= SHOWN {
        push_runs(&mut text, layout)?;
    } else {
        push_ends(&mut text, layout)?;
    }
    if layout.overlaps() {
        text.push_str(" overlaps")?;
    }
    match layout.element() {
        Some(element) => write!(text, " {}", element.word())?,
        None if layout.is_empty() => {}
        None => text.push_str(" mixed")?,
    }
    Ok(text)
}

/// Appends runs, with a blank between them, or that there are none.
fn push_runs(text: &mut String, layout: &Layout) -> Result<(), Failure> {
    if layout.is_empty() {
        return Ok(text.push_str("nothing")?);
    }
    for index in 0..layout.len() {
        push_run(text, index, layout.get(index))?;
    }
    Ok(())
}

/// Appends how many runs there are, the first and the last.
fn push_ends(text: &mut String, layout: &Layout) -> Result<(), Failure> {
    let count = layout.len();
    if count == 0 {
        return Ok(());
    }
    let first = layout.get(0);
    let last = layout.get(count - 1);
    write!(text, "{count} runs from {}+{}", first.start, first.len)?;
    Ok(write!(text, " to {}+{}", last.start, last.len)?)
}
