//! Comments that nest.

ghost use Rattle.std.specs.Prelude.{◌≡◌, ◌+◌, ◌≤◌, drop, length, IsTrue, IfSome};
ghost use Rattle.dart_scan.specs.Comments.{comment_size};
ghost use Rattle.dart_scan.specs.Lexemes.{begins};

/// These bytes stand in the text from the place on.
fn stands_at(bytes: &[u8], text: &[u8], at: usize) -> bool
    requires { at ≤ length text.now }
    ensures value { result ≡ begins (drop at text.now) bytes.now }
    ensures within { IsTrue result → at + length bytes.now ≤ length text.now }
{
    text[at..].starts_with(bytes)
}

/// How many bytes a comment has whose `/*` stands before the text; None where it never ends.
pub fn comment_size(text: &[u8]) -> Option<usize>
    ensures size { result ≡ comment_size text.now }
    ensures within { IfSome result (λ size. size ≤ 2 + length text.now) }
{
    let mut inner: usize = 0;
    let mut at = 0;
    while at < text.len() {
        if stands_at(b"*/", text, at) {
            at += 2;
            if inner == 0 {
                return Some(2 + at);
            }
            inner -= 1;
        } else if stands_at(b"/*", text, at) {
            at += 2;
            inner += 1;
        } else {
            at += 1;
        }
    }
    None
}
