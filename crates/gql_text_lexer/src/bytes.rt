//! Bytes and runs of bytes: sections 2.1.1 to 2.1.9 of the GraphQL specification, October 2021.

ghost use Rattle.std.specs.Prelude.{◌≡◌, ◌<◌, ◌≤◌, length, drop};
ghost use Rattle.std.specs.List.{prefix_len};
ghost use Rattle.gql_text_lexer.specs.Bytes.{is_minus, is_sign, begins_name, is_digit, goes_on_name, goes_on_number, is_blank, is_punctuator, in_line, is_source, is_plain, is_escape, quotes_at, ends_before};
ghost use Rattle.gql_text_lexer.specs.Scan.{after_run, after_one};

/// Whether a name may begin with this byte: a letter or `_`.
pub(crate) fn begins_name(b: u8) -> bool
    ensures { result ≡ begins_name b }
{
    matches!(b, b'A'..=b'Z' | b'a'..=b'z' | b'_')
}

/// Whether the byte is a digit.
pub(crate) fn is_digit(b: u8) -> bool
    ensures { result ≡ is_digit b }
{
    matches!(b, b'0'..=b'9')
}

/// Whether a name may go on with this byte.
pub(crate) fn goes_on_name(b: u8) -> bool
    ensures { result ≡ goes_on_name b }
{
    begins_name(b) || is_digit(b)
}

/// Whether the byte may not follow a number.
pub(crate) fn goes_on_number(b: u8) -> bool
    ensures { result ≡ goes_on_number b }
{
    begins_name(b) || is_digit(b) || b == b'.'
}

/// Whether the byte is a tab, a space, LF, CR or a comma.
pub(crate) fn is_blank(b: u8) -> bool
    ensures { result ≡ is_blank b }
{
    matches!(b, b'\t' | b' ' | b'\n' | b'\r' | b',')
}

/// Whether the byte alone is a punctuator.
pub(crate) fn is_punctuator(b: u8) -> bool
    ensures { result ≡ is_punctuator b }
{
    matches!(
        b,
        b'!' | b'$' | b'&' | b'(' | b')' | b':' | b'=' | b'@' | b'[' | b']' | b'{' | b'|' | b'}'
    )
}

/// Whether the byte is one of a source character other than LF and CR.
pub(crate) fn in_line(b: u8) -> bool
    ensures { result ≡ in_line b }
{
    b >= b' ' || b == b'\t'
}

/// Whether the byte is one of a source character.
pub(crate) fn is_source(b: u8) -> bool
    ensures { result ≡ is_source b }
{
    in_line(b) || b == b'\n' || b == b'\r'
}

/// Whether the byte stands for itself in a quoted string.
pub(crate) fn is_plain(b: u8) -> bool
    ensures { result ≡ is_plain b }
{
    in_line(b) && b != b'"' && b != b'\\'
}

/// Whether the byte may follow a backslash; `u` is apart.
pub(crate) fn is_escape(b: u8) -> bool
    ensures { result ≡ is_escape b }
{
    matches!(b, b'"' | b'\\' | b'/' | b'b' | b'f' | b'n' | b'r' | b't')
}

/// Whether three quotation marks stand at this place.
pub(crate) fn quotes_at(text: &[u8], at: usize) -> bool
    requires { at < 2 }
    ensures { result ≡ quotes_at at text.now }
{
    text.len() > at + 2 && text[at] == b'"' && text[at + 1] == b'"' && text[at + 2] == b'"'
}

/// The text after the longest run of bytes of a name.
pub(crate) fn after_name(text: &[u8]) -> &[u8]
    ensures { result.now ≡ after_run goes_on_name text.now }
{
    let mut rest = text;
    while let Some((first, more)) = rest.split_first()
        && goes_on_name(*first)
    {
        rest = more;
    }
    rest
}

/// The text after the longest run of source characters other than LF and CR.
pub(crate) fn after_line(text: &[u8]) -> &[u8]
    ensures { result.now ≡ after_run in_line text.now }
{
    let mut rest = text;
    while let Some((first, more)) = rest.split_first()
        && in_line(*first)
    {
        rest = more;
    }
    rest
}

/// The text after the longest run of digits.
pub(crate) fn after_digits(text: &[u8]) -> &[u8]
    ensures { result.now ≡ after_run is_digit text.now }
{
    let mut rest = text;
    while let Some((first, more)) = rest.split_first()
        && is_digit(*first)
    {
        rest = more;
    }
    rest
}

/// The text after a `-` at the start, if one is there.
pub(crate) fn after_minus(text: &[u8]) -> &[u8]
    ensures { result.now ≡ after_one is_minus text.now }
{
    match text.split_first() {
        Some((b'-', more)) => more,
        _ => text,
    }
}

/// The text after a `+` or `-` at the start, if one is there.
pub(crate) fn after_sign(text: &[u8]) -> &[u8]
    ensures { result.now ≡ after_one is_sign text.now }
{
    match text.split_first() {
        Some((b'+' | b'-', more)) => more,
        _ => text,
    }
}

/// How many bytes at the start stand for themselves in a quoted string.
pub(crate) fn plain_len(text: &[u8]) -> usize
    ensures len { result ≡ prefix_len is_plain text.now }
    ensures within { result ≤ length text.now }
{
    text.iter().take_while(|b| is_plain(**b)).count()
}

/// The text after its first `n` bytes.
pub(crate) fn from(text: &[u8], n: usize) -> &[u8]
    requires { n ≤ length text.now }
    ensures { result.now ≡ drop n text.now }
{
    &text[n..]
}
