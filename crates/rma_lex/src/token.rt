//! The fields of a line, one by one.
ghost use Rattle.std.specs.Prelude.{◌≡◌, ◌<◌, ◌^◌, length};
ghost use Rattle.std.specs.Iterator.{YieldsFirstBy, item_count};
ghost use Rattle.rma_lex.specs.inside.Blank.{blank_at};
ghost use Rattle.rma_lex.specs.Field.{fields};
ghost use Rattle.rma_lex.specs.Token.{field_of};

use crate::blank::is_blank;
use crate::edge::Edges;
use std::marker::Model;

/// A field of a line.
#[derive(Clone, Copy, Debug)]
pub struct Token<'a> {
    /// The position of its first byte in the line.
    pub start: usize,
    /// Its bytes.
    pub text: &'a [u8],
}

/// The fields of a line that are left.
#[derive(Debug, Drop)]
pub struct TokenIter<'a> {
    /// Where the next field begins, and the edges after it.
    edges: Edges<'a>,
}

impl<'a> Model for TokenIter<'a> {
    ghost use Rattle.std.specs.Prelude.{List, ◌≡◌, ◌<◌, drop, false, length};
    ghost use Rattle.rma_lex.specs.inside.Blank.{blank_at};
    ghost use Rattle.rma_lex.specs.Field.{Field, fields_from};
    ghost use Rattle.rma_lex.specs.inside.Reached.{Reaches};

    ghost Value = { List Field };

    ghost view = { λ tokens. fields_from tokens.edges.place (drop tokens.edges.place tokens.edges.line.now) };

    ghost invariant = { λ tokens. Reaches tokens.edges × (tokens.edges.place < length tokens.edges.line.now → blank_at tokens.edges.line.now tokens.edges.place ≡ false) };
}

/// The fields of the line, in order.
#[inline]
pub fn tokens(line: &[u8]) -> TokenIter<'_>
    ensures fields { result ≡ fields line.now }
    ensures bound { length result < 2 ^ 64 }
{
    let mut edges = Edges::new(line);
    if begins_blank(line) {
        edges.go_on();
    }
    TokenIter { edges }
}

/// Whether no field begins at the beginning of the line.
#[inline]
fn begins_blank(line: &[u8]) -> bool
    ensures { result ≡ blank_at line.now 0 }
{
    match line.first() {
        Some(byte) => is_blank(*byte),
        None => true,
    }
}

impl<'a> Iterator for TokenIter<'a> {
    type Item = Token<'a>;

    ghost next_gives = { YieldsFirstBy field_of (λ left. left) };

    ghost remaining = { item_count (λ left. left) };

    #[inline]
    fn next(&mut self) -> Option<Token<'a>> {
        let line = self.edges.line;
        let start = self.edges.place;
        if start == line.len() {
            return None;
        }
        self.edges.go_on();
        let end = self.edges.place;
        self.edges.go_on();
        Some(Token {
            start,
            text: &line[start..end],
        })
    }
}
