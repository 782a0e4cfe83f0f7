//! Values of options, as they are typed.
use blobref::Text;

/// The first value that words give an option, whether they are a line or not; None where they give it none.
pub(crate) fn value_of<'a>(words: &'a [Text], option: &str) -> Option<&'a str> {
    let mut is_next = false;
    for word in words {
        let word = word.as_str();
        if is_next {
            return Some(word);
        }
        if let Some(rest) = after_name(word, option) {
            if let Some(value) = rest.strip_prefix("=") {
                return Some(value);
            }
            is_next = rest.is_empty();
        }
    }
    None
}

// What follows two dashes and a name in a word.
fn after_name<'a>(word: &'a str, name: &str) -> Option<&'a str> {
    word.strip_prefix("--")?.strip_prefix(name)
}

/// Whether a word is an option's name, with no value in it.
pub(crate) fn is_option(word: &str, name: &str) -> bool {
    match after_name(word, name) {
        Some(rest) => rest.is_empty(),
        None => false,
    }
}

/// Whether words have an option more than once.
pub(crate) fn is_twice(words: &[Text], option: &str) -> bool {
    let mut has_it = false;
    for word in words {
        let is_it = match after_name(word.as_str(), option) {
            Some(rest) => rest.is_empty() || rest.starts_with('='),
            None => false,
        };
        if is_it && has_it {
            return true;
        }
        has_it = has_it || is_it;
    }
    false
}

/// Whether a text is a number from 1 to the greatest that may stand there.
pub(crate) fn is_number(text: &str, most: u64) -> bool {
    if !text.bytes().all(|b| b.is_ascii_digit()) {
        return false;
    }
    match text.parse::<u64>() {
        Ok(number) => 1 <= number && number <= most,
        Err(_) => false,
    }
}
