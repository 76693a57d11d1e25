//! Tests of folders, whose files have names relative to them.

ghost use Rattle.std.specs.Prelude.{◌≡◌};

use crate::fresh_folder::{SIZELESS, fresh_folder, inside, is_sizeless};
use chunk_store::id::ChunkId;
use dsy_base::fault::{FileFault, IoFault};
use dsy_base::files::Files;
use dsy_base::folder::Folder;
use dsy_base::image_files::ImageFiles;
use dsy_base::inner_folders::InnerFolders;
use dsy_base::look::Look;
use dsy_real::real_files::RealFiles;
use std::fs;
use std::os::unix::fs::symlink;
use std::process::Abort;

// What is put last under a name is read from there.
fn reads_what_is_put<D: Folder, R: Abort>(rt: &R, folder: &mut D)
    ensures place { D.place folder.new ≡ D.place folder.old }
{
    let mut bytes = [0; 4];
    assert!(rt; folder.put("ab/cd", b"one").is_ok());
    assert!(rt; folder.put("ab/cd", b"two").is_ok());
    assert!(rt; folder.read("ab/cd", &mut bytes) == Ok(3));
    assert!(rt; bytes == *b"two\0");
}

// The folder that the file lies in can't be read as a file.
fn has_files_alone<D: Folder, R: Abort>(rt: &R, folder: &mut D)
    ensures place { D.place folder.new ≡ D.place folder.old }
{
    assert!(rt; folder.has("ab/cd") == Ok(true));
    assert!(rt; folder.has("ab/ce") == Ok(false));
    assert!(rt; folder.has("ab") == Err(IoFault::Failed));
}

// How many names it lists.
fn count_of_names<D: Folder>(folder: &mut D) -> Option<usize>
    ensures place { D.place folder.new ≡ D.place folder.old }
{
    Some(folder.names().ok()?.len())
}

fn removes_once<D: Folder, R: Abort>(rt: &R, folder: &mut D)
    ensures place { D.place folder.new ≡ D.place folder.old }
{
    assert!(rt; folder.remove("ab/cd") == Ok(true));
    assert!(rt; folder.remove("ab/cd") == Ok(false));
}

fn holds_what_is_put<D: Folder, R: Abort>(rt: &R, folder: &mut D)
    ensures place { D.place folder.new ≡ D.place folder.old }
{
    reads_what_is_put(rt, folder);
    has_files_alone(rt, folder);
    assert!(rt; count_of_names(folder) == Some(1));
    removes_once(rt, folder);
}

#[test]
fn a_folder_holds_what_was_put(rt: HostRuntime) {
    let path = fresh_folder(&rt, "put").expect(&rt, "no folder");
    let mut files = RealFiles::new(&rt, rt.alloc());
    let mut folder = files
        .take_folder(path.as_str())
        .ok()
        .expect(&rt, "not taken");
    holds_what_is_put(&rt, &mut folder);
    files.give_folder(path.as_str(), folder);
    assert!(rt; fs::remove_dir_all(&rt, path.as_str()).is_ok());
}

fn reads_an_empty_file<D: Folder, R: Abort>(rt: &R, folder: &mut D)
    ensures place { D.place folder.new ≡ D.place folder.old }
{
    let mut bytes = [0; 4];
    assert!(rt; folder.put("ab/cd", b"").is_ok());
    assert!(rt; folder.read("ab/cd", &mut bytes) == Ok(0));
}

// The file can't be read, though it is there.
fn refuses_to_read<D: Folder, R: Abort>(rt: &R, folder: &mut D, name: &str)
    ensures place { D.place folder.new ≡ D.place folder.old }
{
    let mut bytes = [0; 4];
    assert!(rt; folder.has(name) == Ok(true));
    assert!(rt; folder.read(name, &mut bytes) == Err(FileFault::Failed));
}

#[test]
fn an_empty_file_is_read_but_none_that_has_bytes_and_no_size(rt: HostRuntime) {
    let path = fresh_folder(&rt, "sizeless").expect(&rt, "no folder");
    let link = inside(&rt, path.as_str(), "link").expect(&rt, "no memory");
    assert!(rt; symlink(&rt, SIZELESS, link.as_str()).is_ok());
    let mut files = RealFiles::new(&rt, rt.alloc());
    let mut folder = files
        .take_folder(path.as_str())
        .ok()
        .expect(&rt, "not taken");
    reads_an_empty_file(&rt, &mut folder);
    if is_sizeless(&rt, SIZELESS) {
        refuses_to_read(&rt, &mut folder, "link");
    }
    files.give_folder(path.as_str(), folder);
    assert!(rt; fs::remove_dir_all(&rt, path.as_str()).is_ok());
}

// Whether the path is a folder's.
fn is_folder(rt: &HostRuntime, path: &str) -> bool {
    match fs::metadata(rt, path) {
        Ok(metadata) => metadata.is_dir(),
        Err(_) => false,
    }
}

#[test]
fn a_subfolder_is_made_once_for_the_chunks_in_it(rt: HostRuntime) {
    let path = fresh_folder(&rt, "inner").expect(&rt, "no folder");
    let made = inside(&rt, path.as_str(), "abab").expect(&rt, "no memory");
    let files = RealFiles::new(&rt, rt.alloc());
    let inner = files.inner(path.as_str()).expect(&rt, "no memory");
    inner.make_for(ChunkId([0xcd; 32]).path().as_str());
    assert!(rt; !is_folder(&rt, made.as_str()));
    inner.make_for(ChunkId([0xab; 32]).path().as_str());
    assert!(rt; is_folder(&rt, made.as_str()));
    inner.make_for(ChunkId([0xab; 32]).path().as_str());
    assert!(rt; is_folder(&rt, made.as_str()));
    assert!(rt; fs::remove_dir_all(&rt, path.as_str()).is_ok());
}
