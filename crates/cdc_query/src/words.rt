//! Words and ids at the front of a text.

ghost use Rattle.std.specs.Prelude.{◌≡◌, MatchOption, Some, None};
ghost use Rattle.std.specs.Str.{str_eq_ignore_ascii_case};
ghost use Rattle.cdc_query.specs.Words.{before, quoted, since, unspaced};

// The text without the spaces at its front.
pub fn skip_spaces(text: &[u8]) -> &[u8]
    ensures { result.now ≡ unspaced text.now }
{
    let mut rest = text;
    while let [b' ', more @ ..] = rest {
        rest = more;
    }
    rest
}

// What stands before the first byte `stop`, and what begins with it; all and nothing where there is none.
pub fn cut(text: &[u8], stop: u8) -> (&[u8], &[u8])
    ensures front { result.0.now ≡ before stop text.now }
    ensures rest { result.1.now ≡ since stop text.now }
{
    for (at, byte) in text.iter().enumerate() {
        if *byte == stop {
            return text.split_at(at);
        }
    }
    (text, &[])
}

// The first word, and what follows it behind spaces.
pub fn cut_word(text: &[u8]) -> (&[u8], &[u8])
    ensures word { result.0.now ≡ before 32 text.now }
    ensures rest { result.1.now ≡ unspaced (since 32 text.now) }
{
    let (word, rest) = cut(text, b' ');
    (word, skip_spaces(rest))
}

// Whether a word stands there, its letters in either case.
pub fn is_word(written: &[u8], word: &[u8]) -> bool
    ensures { result ≡ str_eq_ignore_ascii_case written.now word.now }
{
    written.eq_ignore_ascii_case(word)
}

// What stands between the quotes of `X'..',` at the front, and what follows behind spaces.
pub fn cut_quoted(text: &[u8]) -> Option<(&[u8], &[u8])>
    ensures { MatchOption result (quoted text.now ≡ None) (λ found. quoted text.now ≡ Some (found.0.now, found.1.now)) }
{
    let [b'X' | b'x', b'\'', rest @ ..] = text else {
        return None;
    };
    let (digits, rest) = cut(rest, b'\'');
    let [_, b',', rest @ ..] = rest else {
        return None;
    };
    Some((digits, skip_spaces(rest)))
}
