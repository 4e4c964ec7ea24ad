// A file by its name. The library's names are text in UTF-8.
use std::io::Error;
use std::rt::Files;
use std::{fs, str};

// Linux's number of bytes that are no text.
const NOT_TEXT: i32 = 84;

pub fn open<R: Files>(files: &R, name: &[u8]) -> Result<R::File, Error> {
    let path = str::from_utf8(name).map_err(|_| Error::from_raw_os_error(NOT_TEXT))?;
    fs::open(files, path)
}
