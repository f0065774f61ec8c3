// Files by their names. The library takes a name as text, so that a file whose name is none cannot be opened. Whether there is such a file is
// told all the same.
ghost use Rattle.std.specs.Prelude.{◌≤◌, length};

use std::io::Read;
use std::rt::Files;
use std::{fs, io, str};

// The system's numbers for what is wrong: there is no such file, its name is too long, and its name is no text.
const NO_FILE: i32 = 2;

const LONG_NAME: i32 = 36;

const NO_TEXT: i32 = 84;

// The most bytes of a name within a folder.
const NAME: usize = 255;

// Room for some of the names within a folder.
const NAMES: usize = 4096;

pub(crate) fn open<R: Files>(rt: &R, name: &[u8]) -> io::Result<R::File> {
    match str::from_utf8(name) {
        Ok(name) => fs::open(rt, name),
        Err(fault) => Err(why_unopened(rt, name, fault.valid_up_to())),
    }
}

// Why a file cannot be opened whose name is text up to a place, and no further.
fn why_unopened<R: Files>(rt: &R, name: &[u8], place: usize) -> io::Error
    requires { place ≤ length name.now }
{
    let start = name[..place]
        .iter()
        .rposition(|byte| *byte == b'/')
        .map_or(0, |slash| slash + 1);
    let (folder, rest) = name.split_at(start);
    let part = rest.split(|byte| *byte == b'/').next().unwrap_or(rest);
    match is_within(rt, folder, part) {
        Ok(true) => io::Error::from_raw_os_error(NO_TEXT),
        Ok(false) if NAME < part.len() => io::Error::from_raw_os_error(LONG_NAME),
        Ok(false) => io::Error::from_raw_os_error(NO_FILE),
        Err(cause) => cause,
    }
}

// Has a folder this name in it? The one without a name is where the program runs.
fn is_within<R: Files>(rt: &R, folder: &[u8], name: &[u8]) -> io::Result<bool> {
    let folder = str::from_utf8(folder).unwrap_or("");
    let mut folder = rt.open_dir(if folder.is_empty() { "." } else { folder })?;
    let mut names = [0u8; NAMES];
    for _ in 0..u64::MAX {
        let n = folder.read(&mut names)?;
        if n == 0 {
            break;
        }
        if names[..n]
            .split(|byte| *byte == 0)
            .any(|other| other == name)
        {
            return Ok(true);
        }
    }
    Ok(false)
}
