// Writing the system's files. A failed write leaves the old file and no new one.
use crate::streams::write_all;
use std::alloc::{AllocError, Global};
use std::fs::{self, File, OpenFile, OpenOptions, Permissions};
use std::io::{self, ErrorKind};
use std::path::{Path, PathBuf};
use std::rt::Files;

// How many names are tried for a new file.
const TRIES: u32 = 16;

// How many links in a row are followed.
const MOST_LINKS: u32 = 40;

/// Writes the named file, and says whether it now holds exactly these bytes. Links are followed.
/// Anything but a regular file, such as a device or a pipe, is written in place.
///
/// # Errors
/// Out of memory. After that, and after `false`, a regular file is as it was.
pub fn write_file<R: Files>(
    rt: &R,
    alloc: Global,
    name: &str,
    bytes: &[u8],
) -> Result<bool, AllocError> {
    match fs::metadata(rt, name) {
        Ok(metadata) => {
            if metadata.is_file() {
                replace(rt, alloc, name, metadata.permissions(), bytes)
            } else {
                Ok(write_in_place(rt, name, bytes))
            }
        }
        Err(error) => {
            if error.kind() == ErrorKind::NotFound {
                create(rt, alloc, name, bytes)
            } else {
                Ok(false)
            }
        }
    }
}

fn open_to_write<R: Files>(rt: &R, name: &str) -> io::Result<R::File> {
    OpenOptions::new().write(true).open(rt, name)
}

fn write_in_place<R: Files>(rt: &R, name: &str, bytes: &[u8]) -> bool {
    match open_to_write(rt, name) {
        Ok(mut file) => write_all(&mut file, bytes),
        Err(_) => false,
    }
}

// Replaces a file that may be written, and keeps its permissions.
fn replace<R: Files>(
    rt: &R,
    alloc: Global,
    name: &str,
    permissions: Permissions,
    bytes: &[u8],
) -> Result<bool, AllocError> {
    if open_to_write(rt, name).is_err() {
        return Ok(false);
    }
    match rt.canonicalize(alloc, name) {
        Ok(path) => put(rt, alloc, path.as_str(), Some(permissions), bytes),
        Err(_) => Ok(false),
    }
}

// Makes a new file.
fn create<R: Files>(rt: &R, alloc: Global, name: &str, bytes: &[u8]) -> Result<bool, AllocError> {
    match behind_links(rt, alloc, name)? {
        Some(path) => put(rt, alloc, path.as_str(), None, bytes),
        None => Ok(false),
    }
}

// The path that a name leads to, whose last link may lead to nothing.
fn behind_links<R: Files>(
    rt: &R,
    alloc: Global,
    name: &str,
) -> Result<Option<PathBuf>, AllocError> {
    let mut path = PathBuf::from_str(alloc, name)?;
    for _ in 0..MOST_LINKS {
        match rt.read_link(alloc, path.as_str()) {
            Ok(target) => path = beside(alloc, path.as_str(), target.as_str())?,
            Err(error) => {
                let is_no_link = matches!(
                    error.kind(),
                    ErrorKind::InvalidInput | ErrorKind::NotFound
                );
                return Ok(if is_no_link { Some(path) } else { None });
            }
        }
    }
    Ok(None)
}

// The path of a file as seen from the folder of another.
fn beside(alloc: Global, path: &str, name: &str) -> Result<PathBuf, AllocError> {
    match Path::new(path).parent() {
        Some(folder) => folder.join(alloc, name),
        None => PathBuf::from_str(alloc, name),
    }
}

// Writes a new file beside the path, under a name that no file has, and renames it over the path.
fn put<R: Files>(
    rt: &R,
    alloc: Global,
    path: &str,
    permissions: Option<Permissions>,
    bytes: &[u8],
) -> Result<bool, AllocError> {
    for n in 0..TRIES {
        let name = format!(in alloc; ".image_tool-{n}")?;
        let part = beside(alloc, path, name.as_str())?;
        match File::create_new(rt, part.as_str()) {
            Ok(file) => {
                let placed = fill(file, permissions, bytes)
                    && fs::rename(rt, part.as_str(), path).is_ok();
                if !placed {
                    let _ = fs::remove_file(rt, part.as_str());
                }
                return Ok(placed);
            }
            Err(error) => {
                if error.kind() != ErrorKind::AlreadyExists {
                    return Ok(false);
                }
            }
        }
    }
    Ok(false)
}

// Whether the new file has the bytes and the permissions, and is on the disk.
fn fill<F: io::Write + OpenFile + Drop>(
    mut file: F,
    permissions: Option<Permissions>,
    bytes: &[u8],
) -> bool {
    if !write_all(&mut file, bytes) || file.sync_all().is_err() {
        return false;
    }
    match permissions {
        Some(permissions) => file.set_permissions(permissions).is_ok(),
        None => true,
    }
}
