//! Where each name is declared first.
ghost use Rattle.std.specs.Prelude.{OnOk, IfOk};
ghost use Rattle.rma_member.specs.inside.FirstIndex.{AreFirstIndexes, IsNoted};

use crate::declaration::Declaration;
use indexmap::IndexMap;
use rma_base::{Memory, Name};
use std::alloc::Global;

/// The index of the first declaration of each name.
pub(crate) fn first_indexes<T>(
    alloc: Global,
    list: &[Declaration<T>],
) -> Result<IndexMap<Name, usize>, Memory>
    ensures { IfOk result (λ indexes. AreFirstIndexes list.now indexes.entries) }
{
    let mut indexes = IndexMap::new(alloc);
    for (index, declaration) in list.iter().enumerate() {
        match note(&mut indexes, &declaration.name, index) {
            Ok(()) => {}
            Err(error) => return Err(error),
        }
    }
    Ok(indexes)
}

/// Gives the name this index, if it has none yet.
fn note(indexes: &mut IndexMap<Name, usize>, name: &Name, index: usize) -> Result<(), Memory>
    ensures { OnOk result (IsNoted indexes.old.entries indexes.new.entries name.now index) }
{
    if indexes.get(name).is_some() {
        return Ok(());
    }
    let name = name.copy()?;
    match indexes.insert(name, index) {
        Ok(_) => Ok(()),
        Err(_) => Err(Memory),
    }
}
