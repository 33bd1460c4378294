//! The words of the command line.
ghost use Rattle.std.specs.Prelude.{◌≡◌, string_bytes};
ghost use Rattle.std.specs.List.{list_all};
ghost use Rattle.std.specs.Option.{option_copied, option_map};
ghost use Rattle.clr_core.specs.Command as spec;

/// The most files of a command.
const MOST_FILES: usize = 16;

/// A file's word is not empty and doesn't begin with `-`.
fn is_file_word(word: &str) -> bool
    ensures { result ≡ spec.is_file_word word.now }
{
    match word.as_bytes() {
        [] => false,
        [first, ..] => *first != b'-',
    }
}

/// Each is a file's word.
fn each_is_file_word(words: &[String]) -> bool
    ensures { result ≡ list_all (λ word. spec.is_file_word (string_bytes word)) words.now }
{
    words.iter().all(|word| is_file_word(word.as_str()))
}

/// One file's word at least, and not more than a command takes.
fn are_file_words(words: &[String]) -> bool
    ensures { result ≡ spec.are_file_words (spec.texts_of words.now) }
{
    !words.is_empty() && words.len() <= MOST_FILES && each_is_file_word(words)
}

/// The files of `names FILE..`, or none where the words are no command.
pub fn named_files(words: &[String]) -> Option<&[String]>
    ensures { option_map spec.texts_of (option_copied result) ≡ spec.named_files (spec.texts_of words.now) }
{
    match words {
        [verb, files @ ..] if verb.as_str() == "names" && are_file_words(files) => Some(files),
        _ => None,
    }
}
