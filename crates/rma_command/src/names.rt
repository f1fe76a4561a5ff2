//! The names of logs among the words.
ghost use Rattle.std.specs.Prelude.{◌≡◌, option_map, map, string_bytes};
ghost use Rattle.std.specs.List.{list_all};
ghost use Rattle.rma_command.specs.inside.Words.{is_name, is_some, names_from, names_if};

use rma_base::limits::RANKS;

/// The names, where all words are names: behind `--` any that is not empty, and else none that is an option.
pub(crate) fn names_from(words: &[String]) -> Option<&[String]>
    ensures { option_map (λ names. map string_bytes names.now) result ≡ names_from (map string_bytes words.now) }
{
    match words.split_first() {
        Some((word, rest)) if word.as_str() == "--" => names_if(are_some(rest), rest),
        _ => names_if(are_names(words), words),
    }
}

/// Whether no word is empty, and none is an option.
fn are_names(words: &[String]) -> bool
    ensures { result ≡ list_all is_name (map string_bytes words.now) }
{
    for word in words {
        if !is_name(word) {
            return false;
        }
    }
    true
}

/// Whether no word is empty.
fn are_some(words: &[String]) -> bool
    ensures { result ≡ list_all is_some (map string_bytes words.now) }
{
    for word in words {
        if !is_some(word) {
            return false;
        }
    }
    true
}

/// The words as names, where they are all of the right form, and there are as many as there may be.
fn names_if(right: bool, words: &[String]) -> Option<&[String]>
    ensures { option_map (λ names. map string_bytes names.now) result ≡ names_if right (map string_bytes words.now) }
{
    if right && !words.is_empty() && words.len() <= RANKS {
        Some(words)
    } else {
        None
    }
}

/// Whether the word is not empty, and no option.
fn is_name(word: &String) -> bool
    ensures { result ≡ is_name (string_bytes word.now) }
{
    match word.as_bytes() {
        [] => false,
        [first, ..] => *first != b'-',
    }
}

/// Whether the word is not empty.
fn is_some(word: &String) -> bool
    ensures { result ≡ is_some (string_bytes word.now) }
{
    !word.is_empty()
}
