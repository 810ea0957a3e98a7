// Classes of bytes, and runs of one class at the front of a text.
ghost use Rattle.std.specs.Prelude.{◌≡◌, ◌≤◌, length, take, drop};
ghost use Rattle.std.specs.List.{prefix_len};
ghost use Rattle.rast_ast.specs.Names.{is_letter, is_digit, is_word_byte};
ghost use Rattle.rast_lex.specs.Bytes.{is_blank, is_comment_byte};

pub fn is_letter_byte(c: u8) -> bool
    ensures { result ≡ is_letter c }
{
    (65 <= c && c <= 90) || (97 <= c && c <= 122)
}

pub fn is_digit_byte(c: u8) -> bool
    ensures { result ≡ is_digit c }
{
    48 <= c && c <= 57
}

pub fn is_blank_byte(c: u8) -> bool
    ensures { result ≡ is_blank c }
{
    c == 32 || c == 9 || c == 13 || c == 10
}

fn is_word_byte(c: u8) -> bool
    ensures { result ≡ is_word_byte c }
{
    is_letter_byte(c) || is_digit_byte(c) || c == 95
}

fn is_comment_byte(c: u8) -> bool
    ensures { result ≡ is_comment_byte c }
{
    c < 128 && c != 10
}

/// How many letters, digits and `_` stand at the front.
pub fn word_run(text: &[u8]) -> usize
    ensures run { result ≡ prefix_len is_word_byte text.now }
    ensures within { result ≤ length text.now }
{
    text.iter().take_while(|c| is_word_byte(**c)).count()
}

/// How many digits stand at the front.
pub fn digit_run(text: &[u8]) -> usize
    ensures run { result ≡ prefix_len is_digit text.now }
    ensures within { result ≤ length text.now }
{
    text.iter().take_while(|c| is_digit_byte(**c)).count()
}

/// How many bytes of a comment stand at the front.
pub fn comment_run(text: &[u8]) -> usize
    ensures run { result ≡ prefix_len is_comment_byte text.now }
    ensures within { result ≤ length text.now }
{
    text.iter().take_while(|c| is_comment_byte(**c)).count()
}

/// The first bytes of a text.
pub fn front(text: &[u8], n: usize) -> &[u8]
    requires { n ≤ length text.now }
    ensures { result.now ≡ take n text.now }
{
    &text[..n]
}

/// The text without its first bytes.
pub fn skip(text: &[u8], n: usize) -> &[u8]
    requires { n ≤ length text.now }
    ensures { result.now ≡ drop n text.now }
{
    &text[n..]
}
