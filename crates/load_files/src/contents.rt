//! What a file of the store contains.

ghost use Rattle.std.specs.Prelude.{◌≡◌, IfOk};
ghost use Rattle.load_files.specs.Contents.{contents_of, size_of};

use dart_text::{Text, TextRefusal};
use std::alloc::{AllocError, Global};

/// What the bytes of a file are: a text, or one of two marks that stand for a text that there is
/// none of. A mark has the count of the bytes.
#[derive(Debug, Drop)]
pub enum FileContents {
    /// The bytes are this text.
    Text { text: Text },
    /// The bytes aren't UTF-8.
    NotUtf8 { bytes: u64 },
    /// The bytes are UTF-8, but more than a text has.
    TooLong { bytes: u64 },
}

impl FileContents {
    /// What these bytes are.
    pub(crate) fn of(alloc: Global, bytes: &[u8]) -> Result<FileContents, AllocError>
        ensures { IfOk result (λ contents. contents ≡ contents_of bytes.now) }
    {
        let size = bytes.len() as u64;
        match Text::new(alloc, bytes) {
            Ok(text) => Ok(FileContents::Text { text }),
            Err(TextRefusal::NotUtf8) => Ok(FileContents::NotUtf8 { bytes: size }),
            Err(TextRefusal::TooLong { bytes: _ }) => Ok(FileContents::TooLong { bytes: size }),
            Err(TextRefusal::Memory) => Err(AllocError),
        }
    }

    /// How many bytes the file has in the store.
    pub fn size(&self) -> u64
        ensures { result ≡ size_of self.now }
    {
        match self {
            FileContents::Text { text } => text.as_str().len() as u64,
            FileContents::NotUtf8 { bytes } => *bytes,
            FileContents::TooLong { bytes } => *bytes,
        }
    }
}
