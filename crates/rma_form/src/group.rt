//! Groups of words that stand again and again behind the fields of a line.
ghost use Rattle.std.specs.Prelude.{◌≡◌, ◌<◌, ◌/◌, ◌++◌, IfOk, OnOk, flat_map, length, string_bytes};
ghost use Rattle.rma_base.specs.declared.version.Version.{Version};
ghost use Rattle.rma_field.specs.Steps.{Gives};
ghost use Rattle.rma_field.specs.Texts.{texts_at};
ghost use Rattle.rma_form.specs.Groups.{block, byte_block, displacement, member, dimension, item_read, item_words, items_read};
ghost use Rattle.rma_form.specs.inside.Places.{first_texts};
ghost use Rattle.rma_form.specs.inside.Suffix.{behind_space};

use crate::texts::{behind, first_of};
use rma_base::{Memory, Sequence};
use rma_datatype::{Block, ByteBlock, Dimension, Member};
use rma_field::{ParseError, Texts, int, integer};

/// The greatest distance in bytes.
pub const DISTANCE: u64 = 140_737_488_355_328;

/// What a group of words stands for.
pub trait Group: Drop {
    ghost use Rattle.std.specs.Prelude.{◌≡◌, ◌<◌, ◌++◌, ℕ, List, Result, OnOk, length, string_bytes};
    ghost use Rattle.rma_base.specs.declared.form_reason.FormReason.{FormReason};
    ghost use Rattle.rma_base.specs.declared.version.Version.{Version};
    ghost use Rattle.rma_field.specs.Steps.{Gives};
    ghost use Rattle.rma_form.specs.inside.Places.{first_texts};
    ghost use Rattle.rma_form.specs.inside.Suffix.{behind_space};

    /// How many words it has.
    ghost width: { ℕ };

    /// What its words stand for.
    ghost reading: { Version → List (List ℕ) → Result Self FormReason };

    /// How it is written.
    ghost spelling: { Self → List (List ℕ) };

    /// How many words it has.
    fn size() -> usize
        ensures is { result ≡ width }
        ensures some { 0 < width };

    /// What its words stand for.
    ///
    /// # Errors
    ///
    /// The first reason for which a word is bad, or that memory ran out.
    fn read(texts: &mut Texts, words: &[&[u8]]) -> Result<Self, ParseError>
        requires { length words.now ≡ width }
        ensures { (version : Version) → Gives result (reading version (first_texts words.now width)) };

    /// Puts its words behind a line.
    ///
    /// # Errors
    ///
    /// That memory ran out.
    fn write(&self, line: &mut String) -> Result<(), Memory>
        ensures { OnOk result (string_bytes line.new ≡ string_bytes line.old ++ behind_space (spelling self.now)) };
}

/// The groups that the words stand for.
///
/// # Errors
///
/// The first reason for which a group is bad, or that memory ran out.
pub fn groups<G: Group>(texts: &mut Texts, words: &[&[u8]]) -> Result<Sequence<G>, ParseError>
    ensures { (version : Version) → Gives result (items_read G.width (G.reading version) (length (texts_at words.now) / G.width) (texts_at words.now)) }
{
    let size = G::size();
    let mut items = Sequence::new(texts.allocator());
    let mut rest = words;
    'groups: while rest.len() >= size {
        let item = G::read(texts, first_of(rest, size))?;
        match items.push(item) {
            Ok(()) => {}
            Err(Memory) => return Err(ParseError::Memory),
        }
        rest = behind(rest, size);
    }
    Ok(items)
}

/// The line with the groups behind it.
pub(crate) fn grouped_line<G: Group>(line: String, items: &Sequence<G>) -> Result<String, Memory>
    ensures { IfOk result (λ more. string_bytes more ≡ string_bytes line ++ flat_map (λ item. behind_space (G.spelling item)) items.now) }
{
    let mut line = line;
    for item in items.as_slice() {
        item.write(&mut line)?;
    }
    Ok(line)
}

impl Group for Block {
    ghost width = { 2 };

    ghost reading = { item_read block };

    ghost spelling = { item_words block };

    fn size() -> usize {
        2
    }

    fn read(_texts: &mut Texts, words: &[&[u8]]) -> Result<Block, ParseError> {
        let length = int(words[0])?;
        let displacement = int(words[1])?;
        Ok(Block {
            length,
            displacement,
        })
    }

    fn write(&self, line: &mut String) -> Result<(), Memory> {
        write!(line, " {} {}", self.length, self.displacement)?;
        Ok(())
    }
}

impl Group for ByteBlock {
    ghost width = { 2 };

    ghost reading = { item_read byte_block };

    ghost spelling = { item_words byte_block };

    fn size() -> usize {
        2
    }

    fn read(_texts: &mut Texts, words: &[&[u8]]) -> Result<ByteBlock, ParseError> {
        let length = int(words[0])?;
        let displacement = integer(words[1], DISTANCE, DISTANCE)?;
        Ok(ByteBlock {
            length,
            displacement,
        })
    }

    fn write(&self, line: &mut String) -> Result<(), Memory> {
        write!(line, " {} {}", self.length, self.displacement)?;
        Ok(())
    }
}

impl Group for i32 {
    ghost width = { 1 };

    ghost reading = { item_read displacement };

    ghost spelling = { item_words displacement };

    fn size() -> usize {
        1
    }

    fn read(_texts: &mut Texts, words: &[&[u8]]) -> Result<i32, ParseError> {
        int(words[0])
    }

    fn write(&self, line: &mut String) -> Result<(), Memory> {
        write!(line, " {self}")?;
        Ok(())
    }
}

impl Group for Member {
    ghost width = { 3 };

    ghost reading = { item_read member };

    ghost spelling = { item_words member };

    fn size() -> usize {
        3
    }

    fn read(texts: &mut Texts, words: &[&[u8]]) -> Result<Member, ParseError> {
        let length = int(words[0])?;
        let displacement = integer(words[1], DISTANCE, DISTANCE)?;
        let old = texts.name(words[2])?;
        Ok(Member {
            length,
            displacement,
            old,
        })
    }

    fn write(&self, line: &mut String) -> Result<(), Memory> {
        let old = self.old.text();
        write!(line, " {} {} {old}", self.length, self.displacement)?;
        Ok(())
    }
}

impl Group for Dimension {
    ghost width = { 3 };

    ghost reading = { item_read dimension };

    ghost spelling = { item_words dimension };

    fn size() -> usize {
        3
    }

    fn read(_texts: &mut Texts, words: &[&[u8]]) -> Result<Dimension, ParseError> {
        let size = int(words[0])?;
        let part = int(words[1])?;
        let start = int(words[2])?;
        Ok(Dimension { size, part, start })
    }

    fn write(&self, line: &mut String) -> Result<(), Memory> {
        write!(line, " {} {} {}", self.size, self.part, self.start)?;
        Ok(())
    }
}
