//! The token in a file.

use lw_http::token_in;

/// The text of a file, and the token in it; `-` where there is none.
static ROWS: [(&str, &str); 12] = [
    ("0123456789abcdef", "0123456789abcdef"),
    ("0123456789abcdef\n", "0123456789abcdef"),
    ("0123456789abcdef\r\n", "0123456789abcdef"),
    ("-._~+/=AZaz09-._~\nmore", "-._~+/=AZaz09-._~"),
    ("", "-"),
    ("\n0123456789abcdef", "-"),
    ("0123456789abcde", "-"),
    ("0123456789abcde\n", "-"),
    ("0123456789abcdef ", "-"),
    ("0123456789abcdef\r", "-"),
    ("01234567 89abcdef", "-"),
    ("0123456789abcde\u{e9}", "-"),
];

fn is_token(text: &str, want: &str) -> bool {
    match token_in(text.as_bytes()) {
        Some(token) => token == want.as_bytes(),
        None => want == "-",
    }
}

/// Tries: token_in
#[test]
fn tokens_of_files(rt: HostRuntime) {
    for (text, want) in &ROWS {
        assert!(rt; is_token(text, want), "{text}");
    }
}

/// Whether as many characters are a token.
fn is_long_token(length: usize) -> bool {
    let text = [b'a'; 300];
    token_in(&text[..length.min(300)]).is_some()
}

/// Tries: token_in
#[test]
fn the_longest_token(rt: HostRuntime) {
    assert!(rt; is_long_token(256));
    assert!(rt; !is_long_token(257));
    assert!(rt; !is_long_token(300));
}
