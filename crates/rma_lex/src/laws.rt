//! What the lines of a text are, in other words.
ghost use Rattle.std.specs.Prelude.{◌≡◌, ℕ, List, [], ◌∷◌, ◌++◌, ◌≤◌, ◌==◌, true, length, take, All, Contains, if◌then◌else◌};
ghost use Rattle.rma_lex.specs.Line.{lines, joined, has_open_end, line_feeds};
ghost use Rattle.rma_lex.specs.Checked.{checked_lines};
ghost use Rattle.rma_lex.specs.Cutting.{Cutting, Represents};

/// The lines of a text are the one list of lines without line feeds that makes the text, once each has its line
/// feed. Where the text does not end in one, that is the text and one line feed more.
pub fn lines_make_the_text()
    ensures no_line_feed { (text : List ℕ) → All (λ line. ¬ Contains line 10) (lines text) }
    ensures joined { (text : List ℕ) → joined (lines text) ≡ (if has_open_end text then text ++ 10 ∷ [] else text) }
    ensures only { (them : List (List ℕ)) → All (λ line. ¬ Contains line 10) them → lines (joined them) ≡ them }
{}

/// What each line is, good or bad, is one for each line of the text, and stays as it is when the text goes on after
/// the line feed that ends it.
pub fn checked_lines_stay()
    ensures as_many { (text : List ℕ) → length (checked_lines text) ≡ length (lines text) }
    ensures stay { (n : ℕ) (text more : List ℕ) → n ≤ line_feeds text → take n (checked_lines (text ++ more)) ≡ take n (checked_lines text) }
{}

/// The text that a cutter represents and the number of lines that it handed out determine all that it hands out from then
/// on: two such cutters were fed as many bytes, and however the text goes on, if it still may, what is left for them are
/// the same lines, good or bad.
pub fn text_determines_what_is_left()
    ensures fed { (one other : Cutting) (text : List ℕ) → Represents one text → Represents other text → one.fed ≡ other.fed }
    ensures left { (one other : Cutting) (text more : List ℕ) → Represents one text → Represents other text → one.handed ≡ other.handed → one.closed ≡ other.closed → (one.closed ≡ true → more ≡ []) → checked_lines (one.rest ++ more) ≡ checked_lines (other.rest ++ more) }
{}
