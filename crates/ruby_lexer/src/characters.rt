ghost use Rattle.std.specs.Prelude.{◌≡◌, ◌≤◌, ◌<◌, ◌-◌, ◌==◌, ◌||◌, length, take, drop, slice_index, IsTrue};
ghost use Rattle.std.specs.Char.{digit_value};
ghost use Rattle.ruby_lexer.specs.Characters as spec;
ghost use Rattle.ruby_lexer.specs.Characters.{first_is};

/// `0` to `9`
pub fn is_digit(byte: u8) -> bool
    ensures { result ≡ spec.is_digit byte }
{
    byte >= b'0' && byte <= b'9'
}

/// `A` to `Z`
pub fn is_upper(byte: u8) -> bool
    ensures { result ≡ spec.is_upper byte }
{
    byte >= b'A' && byte <= b'Z'
}

/// A byte that ends a line.
pub fn is_line_end(byte: u8) -> bool
    ensures { result ≡ spec.is_line_end byte }
{
    byte == b'\n' || byte == b'\r'
}

/// A space or a tab.
pub fn is_space(byte: u8) -> bool
    ensures { result ≡ spec.is_space byte }
{
    byte == b' ' || byte == b'\t'
}

/// `?` or `!`
pub fn is_mark(byte: u8) -> bool
    ensures { result ≡ spec.is_mark byte }
{
    byte == b'?' || byte == b'!'
}

// A byte that goes on with the character before it.
fn is_continuation(byte: u8) -> bool
    ensures { result ≡ spec.is_continuation byte }
{
    byte >= 128 && byte < 192
}

/// Whether a digit begins the text.
pub fn begins_with_digit(text: &[u8]) -> bool
    ensures { result ≡ first_is spec.is_digit text.now }
{
    match text {
        [first, ..] => is_digit(*first),
        [] => false,
    }
}

/// Whether `A` to `Z` begins the text.
pub fn begins_with_upper(text: &[u8]) -> bool
    ensures { result ≡ first_is spec.is_upper text.now }
{
    match text {
        [first, ..] => is_upper(*first),
        [] => false,
    }
}

/// Whether `?` or `!` begins the text.
pub fn begins_with_mark(text: &[u8]) -> bool
    ensures { result ≡ first_is spec.is_mark text.now }
{
    match text {
        [first, ..] => is_mark(*first),
        [] => false,
    }
}

/// Whether a space or a tab begins the text.
pub fn begins_with_space(text: &[u8]) -> bool
    ensures { result ≡ first_is spec.is_space text.now }
{
    match text {
        [first, ..] => is_space(*first),
        [] => false,
    }
}

/// Whether a byte that ends a line begins the text.
pub fn begins_with_line_end(text: &[u8]) -> bool
    ensures { result ≡ first_is spec.is_line_end text.now }
{
    match text {
        [first, ..] => is_line_end(*first),
        [] => false,
    }
}

/// Whether this byte begins the text.
pub fn begins(byte: u8, text: &[u8]) -> bool
    ensures { result ≡ spec.begins byte text.now }
{
    match text {
        [first, ..] => *first == byte,
        [] => false,
    }
}

/// Whether the text begins with this one.
pub fn has_front(front: &str, text: &[u8]) -> bool
    ensures { result ≡ spec.has_front front.now text.now }
{
    has_bytes(front.as_bytes(), text)
}

/// Whether the text begins with these bytes.
pub fn has_bytes(front: &[u8], text: &[u8]) -> bool
    ensures { result ≡ spec.has_front front.now text.now }
{
    text.starts_with(front)
}

/// The text behind so many bytes, or nothing where it is shorter.
pub fn behind(text: &[u8], len: usize) -> &[u8]
    ensures { result.now ≡ drop len text.now }
{
    if len <= text.len() { &text[len..] } else { &[] }
}

/// The text up to so many bytes, or all of it where it is shorter.
pub fn front(text: &[u8], len: usize) -> &[u8]
    ensures { result.now ≡ take len text.now }
{
    if len <= text.len() {
        &text[..len]
    } else {
        text
    }
}

/// Whether this byte stands in the text behind so many bytes.
pub fn stands_behind(byte: u8, len: usize, text: &[u8]) -> bool
    ensures value { result ≡ spec.begins byte (drop len text.now) }
    ensures within { IsTrue result → len < length text.now }
{
    len < text.len() && begins(byte, behind(text, len))
}

/// The value of a digit or a letter, and 36 for any other byte.
pub fn digit_value(byte: u8) -> u8
    ensures { result ≡ digit_value byte }
{
    match byte {
        b'0'..=b'9' => byte - b'0',
        b'A'..=b'Z' => byte - b'A' + 10,
        b'a'..=b'z' => byte - b'a' + 10,
        _ => 36,
    }
}

// ---- characters

// The byte at a place, or 0.
fn byte_at(text: &[u8], at: usize) -> u8
    ensures { result ≡ slice_index text.now at }
{
    match text.get(at) {
        Some(byte) => *byte,
        None => 0,
    }
}

// What a byte of a character past ASCII says, but for what its first bits say.
fn low(byte: u8, first: u8) -> u32
    ensures value { result ≡ byte - first }
    ensures small { result < 256 }
{
    u32::from(byte.saturating_sub(first))
}

// The character past ASCII that a byte begins, by what follows it.
fn decoded(byte: u8, rest: &[u8]) -> u32
    ensures { result ≡ spec.decoded byte rest.now }
{
    if byte < 224 {
        low(byte, 192) * 64 + low(byte_at(rest, 0), 128)
    } else if byte < 240 {
        (low(byte, 224) * 64 + low(byte_at(rest, 0), 128)) * 64 + low(byte_at(rest, 1), 128)
    } else {
        ((low(byte, 240) * 64 + low(byte_at(rest, 0), 128)) * 64 + low(byte_at(rest, 1), 128)) * 64
            + low(byte_at(rest, 2), 128)
    }
}

fn continues_identifier(code: u32) -> bool
    ensures { result ≡ spec.continues_identifier code }
{
    match char::from_u32(code) {
        Some(character) => unicode_ident::is_xid_continue(character),
        None => false,
    }
}

// Whether a byte is of a word's character, by what follows it.
fn is_of_word(byte: u8, rest: &[u8]) -> bool
    ensures { result ≡ spec.is_of_word byte rest.now }
{
    if byte < 128 {
        byte.is_ascii_alphanumeric() || byte == b'_'
    } else {
        is_continuation(byte) || continues_identifier(decoded(byte, rest))
    }
}

// How many bytes go on with a character.
fn continuation_len(text: &[u8]) -> usize
    ensures value { result ≡ spec.continuation_len text.now }
    ensures within { result ≤ length text.now }
{
    for (at, byte) in text.iter().enumerate() {
        if !is_continuation(*byte) {
            return at;
        }
    }
    text.len()
}

/// The first character.
pub fn character_len(text: &[u8]) -> usize
    ensures value { result ≡ spec.character_len text.now }
    ensures within { result ≤ length text.now }
{
    match text {
        [_, rest @ ..] => 1 + continuation_len(rest),
        [] => 0,
    }
}

// ---- words

/// Characters of words.
pub fn word_characters_len(text: &[u8]) -> usize
    ensures value { result ≡ spec.word_characters_len text.now }
    ensures within { result ≤ length text.now }
{
    for (at, byte) in text.iter().enumerate() {
        if !is_of_word(*byte, &text[at + 1..]) {
            return at;
        }
    }
    text.len()
}

/// A word, whose first character is no digit.
pub fn word_len(text: &[u8]) -> usize
    ensures value { result ≡ spec.word_len text.now }
    ensures within { result ≤ length text.now }
{
    if begins_with_digit(text) {
        0
    } else {
        word_characters_len(text)
    }
}

/// Whether a word character begins the text.
pub fn begins_word(text: &[u8]) -> bool
    ensures { result ≡ spec.begins_word text.now }
{
    match text {
        [first, rest @ ..] => is_of_word(*first, rest),
        [] => false,
    }
}

// `=`, `~` or `>`
fn joins_equals(text: &[u8]) -> bool
    ensures { result ≡ first_is (λ c. c == 61 || (c == 126 || c == 62)) text.now }
{
    match text {
        [first, ..] => *first == b'=' || *first == b'~' || *first == b'>',
        [] => false,
    }
}

/// Whether a single `=` begins the text.
pub fn single_equals(text: &[u8]) -> bool
    ensures { result ≡ spec.single_equals text.now }
{
    match text {
        [first, rest @ ..] => *first == b'=' && !joins_equals(rest),
        [] => false,
    }
}

// Whether a word takes the mark that begins the text.
fn takes_mark(text: &[u8]) -> bool
    ensures { result ≡ spec.takes_mark text.now }
{
    match text {
        [first, rest @ ..] => is_mark(*first) && !single_equals(rest),
        [] => false,
    }
}

/// A word with the mark that it takes.
pub fn marked_len(text: &[u8]) -> usize
    ensures value { result ≡ spec.marked_len text.now }
    ensures within { result ≤ length text.now }
{
    let len = word_len(text);
    if len != 0 && takes_mark(&text[len..]) {
        len + 1
    } else {
        len
    }
}
