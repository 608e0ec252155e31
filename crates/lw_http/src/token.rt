//! The token in a file.

ghost use Rattle.std.specs.Prelude.{◌≡◌, ◌≤◌, length, option_copied};
ghost use Rattle.std.specs.List.{prefix_len};
ghost use Rattle.lw_http.specs.Token.{ends_line as is_end_of_line, is_token_byte as is_of_token, token_in as token_of};

/// The fewest and the most characters of a token.
const FEWEST: usize = 16;

const MOST: usize = 256;

/// The token that is the first line of a file, if it is one.
pub fn token_in(text: &[u8]) -> Option<&[u8]>
    ensures { option_copied result ≡ token_of text.now }
{
    let length = token_length(text);
    if length < FEWEST || length > MOST || !ends_line(&text[length..]) {
        return None;
    }
    Some(&text[..length])
}

/// How many bytes that a token may have come first.
fn token_length(text: &[u8]) -> usize
    ensures value { result ≡ prefix_len is_of_token text.now }
    ensures within { result ≤ length text.now }
{
    text.iter().take_while(|byte| is_token_byte(**byte)).count()
}

fn is_token_byte(byte: u8) -> bool
    ensures { result ≡ is_of_token byte }
{
    byte.is_ascii_alphanumeric() || matches!(byte, b'-' | b'.' | b'_' | b'~' | b'+' | b'/' | b'=')
}

/// Whether a line ends here, or the text.
fn ends_line(rest: &[u8]) -> bool
    ensures { result ≡ is_end_of_line rest.now }
{
    rest.is_empty() || rest[0] == b'\n' || (rest.len() > 1 && rest[0] == b'\r' && rest[1] == b'\n')
}
