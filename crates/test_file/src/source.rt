//! Where the lines come from.

use library_source::{FolderLibrary, Library, ReadError};
use std::alloc::{AllocError, Global};
use std::rt::Files;

/// The bytes of the file at a path, where there is one.
pub fn bytes_at<R: Files + Clone + Drop + Send>(
    rt: &R,
    alloc: Global,
    path: &str,
) -> Result<Option<Vec<u8>>, AllocError> {
    let mut library = FolderLibrary::new(rt.clone()?, alloc);
    match library.read(path.as_bytes()) {
        Ok(bytes) => Ok(Some(bytes)),
        Err(ReadError::Memory) => Err(AllocError),
        Err(ReadError::Missing | ReadError::Failed) => Ok(None),
    }
}

/// The text of the file at a path, where there is one that is text.
pub fn text_at<R: Files + Clone + Drop + Send>(
    rt: &R,
    alloc: Global,
    path: &str,
) -> Result<Option<String>, AllocError> {
    match bytes_at(rt, alloc, path)? {
        Some(bytes) => Ok(String::from_utf8(bytes).ok()),
        None => Ok(None),
    }
}

/// A line without its remark, which begins with `#`.
pub fn without_remark(line: &str) -> &str {
    match line.split_once('#') {
        Some((front, _remark)) => front.trim_end(),
        None => line,
    }
}
