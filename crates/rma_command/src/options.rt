//! The options among the words.
ghost use Rattle.std.specs.Prelude.{◌≡◌, option_map, map, string_bytes};
ghost use Rattle.rma_command.specs.inside.Words.{json_from, limit_behind, limit_from};

use crate::number::number_of;

/// The limit, if the first words give one, and the words behind it; nothing where it is no number.
pub(crate) fn limit_from(words: &[String]) -> Option<(Option<u32>, &[String])>
    ensures { option_map (λ found. (found.0, map string_bytes found.1.now)) result ≡ limit_from (map string_bytes words.now) }
{
    match words.split_first() {
        Some((word, rest)) if word.as_str() == "--limit" => limit_behind(rest),
        _ => Some((None, words)),
    }
}

/// The limit that the first word gives, and the words behind it.
fn limit_behind(words: &[String]) -> Option<(Option<u32>, &[String])>
    ensures { option_map (λ found. (found.0, map string_bytes found.1.now)) result ≡ limit_behind (map string_bytes words.now) }
{
    let (word, rest) = words.split_first()?;
    let limit = number_of(word.as_str())?;
    Some((Some(limit), rest))
}

/// Whether the first word asks for JSON, and the words behind it.
pub(crate) fn json_from(words: &[String]) -> (bool, &[String])
    ensures { (result.0, map string_bytes result.1.now) ≡ json_from (map string_bytes words.now) }
{
    match words.split_first() {
        Some((word, rest)) if word.as_str() == "--json" => (true, rest),
        _ => (false, words),
    }
}
