//! Paths of a file store.

ghost use Rattle.std.specs.Prelude.{◌≡◌, ◌==◌, option_map};
ghost use Rattle.std.specs.List.{list_all, slice_split};
ghost use Rattle.fault_io.specs.Paths.{slash, is_path, is_segment, is_under, after_front, front_of};

/// Whether a text is an absolute and normalized path: `/`, or one or more times a slash and a
/// segment that isn't empty, isn't `.` or `..` and holds no slash and no NUL.
pub fn is_path(path: &str) -> bool
    ensures { result ≡ is_path path.now }
{
    match path.as_bytes() {
        [first, rest @ ..] => *first == b'/' && (rest.is_empty() || are_segments(rest)),
        [] => false,
    }
}

/// Whether each piece between two slashes, before the first and after the last is a segment.
fn are_segments(pieces: &[u8]) -> bool
    ensures { result ≡ list_all is_segment (slice_split (λ byte. byte == slash) pieces.now) }
{
    pieces
        .split(|byte| *byte == b'/')
        .all(|piece| is_segment(piece))
}

/// Whether a piece between slashes is a segment.
fn is_segment(name: &[u8]) -> bool
    ensures { result ≡ is_segment name.now }
{
    match name {
        [] | [b'.'] | [b'.', b'.'] => false,
        _ => !name.contains(&0),
    }
}

/// What follows this front, in a text that begins with it.
fn after_front<'a>(front: &str, text: &'a str) -> Option<&'a str>
    ensures { option_map (λ rest. rest.now) result ≡ after_front front.now text.now }
{
    text.strip_prefix(front)
}

/// What follows a folder and its slash, in a path that begins with them.
pub fn after_folder<'a>(folder: &str, path: &'a str) -> Option<&'a str>
    ensures { option_map (λ rest. rest.now) result ≡ after_front (front_of folder.now) path.now }
{
    if folder == "/" {
        return after_front("/", path);
    }
    match after_front(folder, path) {
        Some(rest) => after_front("/", rest),
        None => None,
    }
}

/// Whether a path lies under a folder: it begins with the folder and a slash. All paths but `/`
/// itself lie under `/`.
pub fn is_under(folder: &str, path: &str) -> bool
    ensures { result ≡ is_under folder.now path.now }
{
    path != "/" && after_folder(folder, path).is_some()
}
