//! The files and folders of tests: a new folder for one test, under the system's temporary folder, and a file of Linux
//! that has bytes and no size.

use std::alloc::AllocError;
use std::io::ErrorKind;
use std::{env, fs, io};

/// A file that has bytes, of which Linux says that it has none.
pub const SIZELESS: &str = "/proc/version";

/// Whether the system says that such a file is there.
pub fn is_sizeless(rt: &HostRuntime, path: &str) -> bool {
    match fs::metadata(rt, path) {
        Ok(metadata) => metadata.is_file() && metadata.len() == 0,
        Err(_) => false,
    }
}

/// The path of this name in the folder.
pub fn inside(rt: &HostRuntime, folder: &str, name: &str) -> Result<String, AllocError> {
    format!(in rt.alloc(); "{folder}/{name}")
}

// The path of a folder of this name and number.
fn numbered(rt: &HostRuntime, folder: &str, name: &str, number: u32) -> Result<String, AllocError> {
    format!(in rt.alloc(); "{folder}/desync-{name}-{number}")
}

/// Makes a folder of this name that isn't there yet, and answers its path.
pub fn fresh_folder(rt: &HostRuntime, name: &str) -> io::Result<String> {
    let temporary = env::temp_dir(rt)?;
    for number in 0..1_000 {
        let path = numbered(rt, temporary.as_str(), name, number)?;
        match fs::create_dir(rt, path.as_str()) {
            Ok(()) => return Ok(path),
            Err(error) if error.kind() == ErrorKind::AlreadyExists => {}
            Err(error) => return Err(error),
        }
    }
    Err(io::Error::from(ErrorKind::AlreadyExists))
}
