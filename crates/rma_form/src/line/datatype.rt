//! The lines of datatypes.
ghost use Rattle.std.specs.Prelude.{◌≡◌, ◌∷◌, [], IfOk, codes, string_bytes};
ghost use Rattle.std.specs.Fmt.{signed_decimal};
ghost use Rattle.std.specs.List.{join_with_byte};
ghost use Rattle.rma_field.specs.Kinds.{order_word};
ghost use Rattle.rma_form.specs.Canonical.{spelled};
ghost use Rattle.rma_form.specs.declared.event.type_line.TypeLine.TheVariants as typed;

use crate::event::{Event, TypeLine};
use crate::group::grouped_line;
use crate::line::named_line;
use rma_base::{Memory, Name};
use rma_datatype::{Make, Order};
use rma_field::order_word;
use std::alloc::Global;

/// The line of a datatype, without its site.
#[tactic(auto, unfolding(crate::specs::Canonical::spelled))]
pub(crate) fn line(alloc: Global, line: &TypeLine) -> Result<String, Memory>
    ensures { IfOk result (λ text. string_bytes text ≡ join_with_byte 32 (spelled (Event.Datatype line.now))) }
{
    match line {
        TypeLine::Make { name, make } => make_line(alloc, name, make),
        TypeLine::Commit { name } => named_line(alloc, "type commit", name),
        TypeLine::Free { name } => named_line(alloc, "type free", name),
    }
}

// The line of a constructor.
#[tactic(auto, unfolding(crate::specs::Canonical::spelled))]
fn make_line(alloc: Global, name: &Name, make: &Make) -> Result<String, Memory>
    ensures { IfOk result (λ text. string_bytes text ≡ join_with_byte 32 (spelled (Event.Datatype (typed.Make name.now make.now)))) }
{
    match make {
        Make::Contiguous { count, old } => {
            counted_line(alloc, "type contiguous", name, *count, old)
        }
        Make::Vector {
            count,
            length,
            stride,
            old,
        } => {
            let stride = i64::from(*stride);
            strided_line(alloc, "type vector", name, *count, *length, stride, old)
        }
        Make::Hvector {
            count,
            length,
            stride,
            old,
        } => strided_line(alloc, "type hvector", name, *count, *length, *stride, old),
        Make::Indexed { old, blocks } => {
            let front = derived_line(alloc, "type indexed", name, old)?;
            grouped_line(front, blocks)
        }
        Make::Hindexed { old, blocks } => {
            let front = derived_line(alloc, "type hindexed", name, old)?;
            grouped_line(front, blocks)
        }
        Make::IndexedBlock {
            length,
            old,
            displacements,
        } => {
            let front = counted_line(alloc, "type indexed_block", name, *length, old)?;
            grouped_line(front, displacements)
        }
        Make::Struct { members } => {
            let front = named_line(alloc, "type struct", name)?;
            grouped_line(front, members)
        }
        Make::Resized { old, lower, extent } => resized_line(alloc, name, old, *lower, *extent),
        Make::Subarray {
            order,
            old,
            dimensions,
        } => {
            let front = ordered_line(alloc, name, *order, old)?;
            grouped_line(front, dimensions)
        }
    }
}

fn counted_line(
    alloc: Global,
    words: &str,
    name: &Name,
    count: i32,
    old: &Name,
) -> Result<String, Memory>
    ensures { IfOk result (λ text. string_bytes text ≡ join_with_byte 32 (words.now ∷ name.now ∷ signed_decimal count ∷ old.now ∷ [])) }
{
    Ok(format!(in alloc; "{words} {} {count} {}", name.text(), old.text())?)
}

fn strided_line(
    alloc: Global,
    words: &str,
    name: &Name,
    count: i32,
    length: i32,
    stride: i64,
    old: &Name,
) -> Result<String, Memory>
    ensures { IfOk result (λ text. string_bytes text ≡ join_with_byte 32 (words.now ∷ name.now ∷ signed_decimal count ∷ signed_decimal length ∷ signed_decimal stride ∷ old.now ∷ [])) }
{
    let name = name.text();
    let old = old.text();
    Ok(format!(in alloc; "{words} {name} {count} {length} {stride} {old}")?)
}

fn derived_line(alloc: Global, words: &str, name: &Name, old: &Name) -> Result<String, Memory>
    ensures { IfOk result (λ text. string_bytes text ≡ join_with_byte 32 (words.now ∷ name.now ∷ old.now ∷ [])) }
{
    Ok(format!(in alloc; "{words} {} {}", name.text(), old.text())?)
}

fn resized_line(
    alloc: Global,
    name: &Name,
    old: &Name,
    lower: i64,
    extent: i64,
) -> Result<String, Memory>
    ensures { IfOk result (λ text. string_bytes text ≡ join_with_byte 32 (codes "type resized" ∷ name.now ∷ old.now ∷ signed_decimal lower ∷ signed_decimal extent ∷ [])) }
{
    Ok(format!(in alloc;
        "type resized {} {} {lower} {extent}",
        name.text(),
        old.text()
    )?)
}

fn ordered_line(alloc: Global, name: &Name, order: Order, old: &Name) -> Result<String, Memory>
    ensures { IfOk result (λ text. string_bytes text ≡ join_with_byte 32 (codes "type subarray" ∷ name.now ∷ order_word order ∷ old.now ∷ [])) }
{
    let order = order_word(order);
    Ok(format!(in alloc; "type subarray {} {order} {}", name.text(), old.text())?)
}
