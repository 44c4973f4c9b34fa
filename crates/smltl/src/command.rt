ghost use Rattle.std.specs.Prelude.{◌≡◌, ℕ, List, map, IfSome, IfNone, string_bytes};
ghost use Rattle.smltl.specs.Command.{IsCommand, is_option};

/// Whether a word begins with `-` and is longer than one byte.
fn is_option(word: &str) -> bool
    ensures { result ≡ is_option word.now }
{
    match word.as_bytes() {
        [first, _, ..] => *first == b'-',
        _ => false,
    }
}

/// The name of the list, where the words are a command.
pub fn list_word(words: &[String]) -> Option<&str>
    ensures command { IfSome result (λ list. IsCommand (map string_bytes words.now) list.now) }
    ensures none { IfNone result ((list : List ℕ) → IsCommand (map string_bytes words.now) list → ⊥) }
{
    match words {
        [_, list] if !is_option(list.as_str()) => Some(list.as_str()),
        _ => None,
    }
}
