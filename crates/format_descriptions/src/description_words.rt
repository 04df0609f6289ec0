//! The words of descriptions.
ghost use Rattle.std.specs.Prelude.{◌≡◌, ◌≤◌, length, option_map, IfSome, codes};
ghost use Rattle.format_descriptions.specs.DescriptionWords.{is_white_space, ends_word, is_word_at};
ghost use Rattle.format_descriptions.specs.DescriptionWords.{name_rest};

// White space between the words of a component.
pub(crate) fn is_white_space(byte: u8) -> bool
    ensures { result ≡ is_white_space byte }
{
    byte == b' ' || byte == b'\t' || byte == b'\n' || byte == b'\x0c' || byte == b'\r'
}

// Whether a word ends before this text.
#[tactic(auto, unfolding(crate::specs::DescriptionWords::ends_word))]
pub(crate) fn ends_word(text: &[u8]) -> bool
    ensures { result ≡ ends_word text.now }
{
    match text.split_first() {
        Some((first, _)) => *first == b'[' || *first == b']' || is_white_space(*first),
        None => true,
    }
}

// Whether the text begins with this word, and no other byte of a word follows.
#[tactic(auto, unfolding(crate::specs::DescriptionWords::is_word_at))]
pub(crate) fn is_word_at(word: &[u8], text: &[u8]) -> bool
    ensures { result ≡ is_word_at word.now text.now }
{
    let Some((letter, word)) = word.split_first() else {
        return ends_word(text);
    };
    match text.split_first() {
        Some((first, rest)) => *first == *letter && is_word_at(word, rest),
        None => false,
    }
}

// What follows this name, which a colon ends.
#[tactic(auto, unfolding(crate::specs::DescriptionWords::name_rest))]
pub(crate) fn after_name<'a>(name: &[u8], text: &'a [u8]) -> Option<&'a [u8]>
    ensures { option_map (λ rest. rest.now) result ≡ name_rest name.now text.now }
{
    let Some((letter, name)) = name.split_first() else {
        return Some(text);
    };
    match text.split_first() {
        Some((first, rest)) if *first == *letter => after_name(name, rest),
        _ => None,
    }
}
