//! How many files are analyzed.

ghost use Rattle.std.specs.Prelude.{◌≡◌, ◌≤◌, ◌+◌, ◌*◌, ◌&&◌, not, count_by, is_some};
ghost use Rattle.load_files.specs.Tables.{contents_at};
ghost use Rattle.load_files.specs.declared.loading.TheConstants.{MAX_PATHS};
ghost use Rattle.protocol_rules.specs.Files.{analyzed_count, is_analyzed, is_new};

use crate::contents::Contents;

/// How many files of the store are analyzed.
fn count_stored(contents: &Contents) -> usize
    ensures { result ≡ count_by (λ file. is_analyzed contents.now file.0) contents.now.snapshot }
{
    let mut count = 0;
    for file in contents.snapshot().files() {
        if contents.is_analyzed(file.path().as_str()) {
            count += 1;
        }
    }
    count
}

/// Whether a file that the store hadn't is analyzed.
fn is_new_and_analyzed(contents: &Contents, path: &str) -> bool
    ensures { result ≡ (not (is_some (contents_at path.now contents.now.snapshot)) && is_analyzed contents.now path.now) }
{
    contents.snapshot().contents(path).is_none() && contents.is_analyzed(path)
}

/// How many files that the store hadn't are analyzed.
fn count_new(contents: &Contents) -> usize
    ensures { result ≡ count_by (λ overlay. is_new contents.now.snapshot overlay && is_analyzed contents.now overlay.0) contents.now.overlays }
{
    let mut count = 0;
    for entry in contents.overlays().entries() {
        if is_new_and_analyzed(contents, entry.path().as_str()) {
            count += 1;
        }
    }
    count
}

/// The analyzed files are those of the store and those that it hadn't, and few.
fn analyzed_files_are_few(contents: &Contents)
    ensures parts { analyzed_count contents.now ≡ count_by (λ file. is_analyzed contents.now file.0) contents.now.snapshot
        + count_by (λ overlay. is_new contents.now.snapshot overlay && is_analyzed contents.now overlay.0) contents.now.overlays }
    ensures few { analyzed_count contents.now ≤ 2 * MAX_PATHS }
{
    contents.are_within_limits();
}

/// How many files are analyzed. It takes no memory.
pub fn analyzed_count(contents: &Contents) -> usize
    ensures { result ≡ analyzed_count contents.now }
{
    analyzed_files_are_few(contents);
    count_stored(contents) + count_new(contents)
}
