//! Lists of numbers in blocks of a table, where a block is shared instead of added again.
ghost use Rattle.std.specs.Prelude.{◌≡◌, ◌+◌, ◌<◌, ◌≤◌, true, length, slice_index, IfOk};
ghost use Rattle.rma_clock.specs.inside.Blocks.{IsGrown, IsBlock, AreBlocks};

use rma_base::Memory;

/// Cuts the list into blocks of so many numbers, and answers where each of them stands in the table. A block that is the one at the
/// same place of a similar list, whose blocks start at `like`, or with which the table starts, is shared; any other one is added.
///
/// `Memory` where there is none left.
pub(crate) fn add_list(
    table: &mut Vec<u32>,
    size: usize,
    list: &[u32],
    like: &[u32],
) -> Result<Vec<u32>, Memory>
    requires { 0 < size }
    ensures grown { IsGrown table.old.items table.new.items }
    ensures blocks { IfOk result (λ starts. AreBlocks size table.new.items starts.items list.now (length list.now)) }
{
    let mut starts = Vec::with_capacity(*table.allocator(), list.len() / size + 1)?;
    let mut at = 0;
    while at < list.len() {
        let end = block_end(at, size, list.len());
        let start = add_block(table, &list[at..end], nth(like, starts.len()))?;
        starts.push(start)?;
        at = end;
    }
    Ok(starts)
}

/// Where a block of so many numbers ends, in a list that may end before.
fn block_end(at: usize, size: usize, len: usize) -> usize
    requires some { 0 < size }
    requires within { at < len }
    ensures after { at < result }
    ensures size { result ≤ at + size }
    ensures within { result ≤ len }
    ensures whole { result < len → result ≡ at + size }
{
    if len - at < size { len } else { at + size }
}

/// The start at the index, if there is one.
fn nth(starts: &[u32], index: usize) -> Option<u32> {
    match starts.get(index) {
        Some(start) => Some(*start),
        None => None,
    }
}

/// Where the block stands in the table: from the given start on or at the beginning, if it does, and else at the end.
fn add_block(table: &mut Vec<u32>, block: &[u32], like: Option<u32>) -> Result<u32, Memory>
    ensures grown { IsGrown table.old.items table.new.items }
    ensures block { IfOk result (λ start. IsBlock table.new.items start block.now) }
{
    if let Some(start) = like {
        if has_block(table, start as usize, block) {
            return Ok(start);
        }
    }
    if has_block(table, 0, block) {
        return Ok(0);
    }
    push_block(table, block)
}

/// Whether the block stands in the table from this place on.
fn has_block(table: &[u32], start: usize, block: &[u32]) -> bool
    ensures { result ≡ true → IsBlock table.now start block.now }
{
    if table.len() < start || table.len() - start < block.len() {
        return false;
    }
    for (place, number) in block.iter().enumerate() {
        if table[start + place] != *number {
            return false;
        }
    }
    true
}

/// Appends the block, and answers where it starts.
pub(crate) fn push_block(table: &mut Vec<u32>, block: &[u32]) -> Result<u32, Memory>
    ensures grown { IsGrown table.old.items table.new.items }
    ensures block { IfOk result (λ start. IsBlock table.new.items start block.now) }
{
    let start = table.len();
    if start > u32::MAX as usize {
        return Err(Memory);
    }
    table.extend_from_slice(block)?;
    Ok(start as u32)
}

/// The numbers of the table from a place on, at most so many.
pub(crate) fn part(table: &[u32], start: usize, count: usize) -> &[u32] {
    let start = start.min(table.len());
    let end = start + count.min(table.len() - start);
    &table[start..end]
}
