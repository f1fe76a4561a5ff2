//! What the calls of a run declare: communicators and windows, each with its attributes.
ghost use Rattle.std.specs.Prelude.{◌≡◌, ◌++◌, [], OnOk, IfOk, option_copied};
ghost use Rattle.std.specs.List.{cons_option};
ghost use Rattle.rma_call.specs.Call.{call_of};
ghost use Rattle.rma_member.specs.Declaration.{declaration_of, first_of};

use crate::first_index::first_indexes;
use indexmap::IndexMap;
use rma_base::{LineNo, Memory, Name, Rank, Sequence};
use rma_call::{CallRef, WhatRef};
use std::alloc::Global;
use std::marker::Model;

/// A declaration of a communicator or a window.
#[derive(Drop)]
pub struct Declaration<T> {
    /// The rank that makes the call.
    pub rank: Rank,
    /// The line of the call in the log of its rank.
    pub line: LineNo,
    /// What it declares.
    pub name: Name,
    /// What it declares it with.
    pub attributes: T,
}

/// What calls of one kind declare of the thing that they name.
pub trait Attributes: Drop {
    ghost use Rattle.std.specs.Prelude.{◌≡◌, ℕ, List, Option, Bool, IfOk};
    ghost use Rattle.rma_call.specs.Call.{what_of};
    ghost use Rattle.rma_call.specs.declared.what.What.{What};

    /// The name and its attributes, where the call declares one of this kind.
    ghost stated: { What → Option (List ℕ × Self) };

    /// Whether it agrees with the first declaration.
    ghost agrees: { Self → Self → Bool };

    /// The name and its attributes, where the call declares one of this kind.
    ///
    /// # Errors
    ///
    /// `Memory` where memory ran out.
    fn of(what: WhatRef<'_>) -> Result<Option<(Name, Self)>, Memory>
        ensures { IfOk result (λ found. found ≡ stated (what_of what.entry)) };

    /// Whether it agrees with the first declaration.
    fn agrees_with(&self, first: &Self) -> bool
        ensures { result ≡ agrees first.now self.now };
}

/// What the calls of all ranks declare, by rank and then by line, with the index of the first declaration of each name.
#[derive(Drop)]
pub struct Declarations<T: Drop> {
    /// The declarations.
    list: Sequence<Declaration<T>>,
    /// The index of the first declaration of each name.
    indexes: IndexMap<Name, usize>,
}

impl<T: Drop> Model for Declarations<T> {
    ghost use Rattle.std.specs.Prelude.{List};
    ghost use Rattle.rma_member.specs.declared.declaration.Declaration.{Declaration};
    ghost use Rattle.rma_member.specs.inside.FirstIndex.{AreFirstIndexes};

    ghost Value = { List (Declaration T) };

    ghost view = { λ m. m.list };

    ghost invariant = { λ m. AreFirstIndexes m.list m.indexes.entries };
}

impl<T: Attributes> Declarations<T> {
    /// The declarations, with the first of each name.
    ///
    /// # Errors
    ///
    /// `Memory` where memory ran out.
    pub fn new(alloc: Global, list: Sequence<Declaration<T>>) -> Result<Declarations<T>, Memory>
        ensures { IfOk result (λ declarations. declarations ≡ list) }
    {
        let indexes = first_indexes(alloc, list.as_slice())?;
        Ok(Declarations { list, indexes })
    }

    /// The declarations in their order.
    pub fn as_slice(&self) -> &[Declaration<T>]
        ensures { result.now ≡ self.now }
    {
        self.list.as_slice()
    }

    /// The first declaration of the name.
    pub fn first(&self, name: &Name) -> Option<&Declaration<T>>
        ensures { option_copied result ≡ first_of self.now name.now }
    {
        match self.indexes.get(name) {
            Some(index) => Some(self.list.get(*index)),
            None => None,
        }
    }
}

/// Appends what a call declares, if it is of the kind.
///
/// # Errors
///
/// `Memory` where memory ran out.
pub fn push_declaration<T: Attributes>(
    rank: Rank,
    call: CallRef<'_>,
    list: &mut Sequence<Declaration<T>>,
) -> Result<(), Memory>
    ensures { OnOk result (list.new ≡ list.old ++ cons_option (declaration_of T.stated rank (call_of call.entry)) []) }
{
    match T::of(call.what) {
        Ok(Some((name, attributes))) => list.push(Declaration {
            rank,
            line: call.line,
            name,
            attributes,
        }),
        Ok(None) => Ok(()),
        Err(error) => Err(error),
    }
}
