//! Tests of files by their names.

ghost use Rattle.std.specs.Prelude.{◌≡◌};

use crate::fresh_folder::{SIZELESS, fresh_folder, inside, is_sizeless};
use dsy_base::fault::{IoFault, OpenFault};
use dsy_base::files::Files;
use dsy_base::view::{Target, View};
use dsy_real::real_files::RealFiles;
use std::fs;
use std::os::unix::fs::symlink;

// Whether these three bytes stand at offset `at`.
fn reads<V: View>(v: &mut V, at: u64, want: [u8; 3]) -> bool
    ensures kept { V.held v.new ≡ V.held v.old }
{
    let mut out = [0; 3];
    let size = v.size();
    at <= size && 3 <= size - at && v.read_at(at, &mut out).is_ok() && out == want
}

// Whether the file takes a length of six bytes, and these bytes.
fn takes<T: Target>(t: &mut T, b: [u8; 6]) -> bool
    ensures named { (T.held t.new).name ≡ (T.held t.old).name }
{
    t.set_len(6).is_ok() && t.size() == 6 && t.write_at(0, &b).is_ok() && t.size() == 6
}

// Whether a file that is taken takes six bytes, and gives those in the middle.
fn is_written(files: &mut RealFiles<HostRuntime>, name: &str) -> Result<bool, IoFault> {
    let mut target = files.take(name, false)?;
    let written = takes(&mut target, *b"abcdef") && reads(&mut target, 2, *b"cde");
    files.give(name, target);
    Ok(written)
}

// Whether the file holds just these three bytes.
fn holds(files: &mut RealFiles<HostRuntime>, name: &str, want: [u8; 3]) -> Result<bool, OpenFault> {
    let mut view = files.view(name)?;
    let held = view.size() == 3 && reads(&mut view, 0, want);
    files.end_view(view);
    Ok(held)
}

fn replace(files: &mut RealFiles<HostRuntime>, name: &str, b: &[u8]) -> Result<(), IoFault> {
    files.replace(name, b)
}

// Renames the file, where the names differ.
fn rename(files: &mut RealFiles<HostRuntime>, from: &str, to: &str) -> Result<(), OpenFault> {
    if from == to {
        return Err(OpenFault::Memory);
    }
    files.rename(from, to)
}

fn remove(files: &mut RealFiles<HostRuntime>, name: &str) -> Result<(), OpenFault> {
    files.remove(name)
}

// Why the file can't be viewed.
fn no_view(files: &mut RealFiles<HostRuntime>, name: &str) -> Option<OpenFault> {
    files.view(name).err()
}

// The size of the file, if it can be viewed.
fn size_of(files: &mut RealFiles<HostRuntime>, name: &str) -> Option<u64> {
    let view = files.view(name).ok()?;
    let size = view.size();
    files.end_view(view);
    Some(size)
}

// Why the folder can't be looked at.
fn no_look(files: &mut RealFiles<HostRuntime>, name: &str) -> Option<OpenFault> {
    files.look(name).err()
}

#[test]
fn a_file_holds_what_was_written(rt: HostRuntime) {
    let folder = fresh_folder(&rt, "written").expect(&rt, "no folder");
    let name = inside(&rt, folder.as_str(), "file").expect(&rt, "no memory");
    let mut files = RealFiles::new(&rt, rt.alloc());
    assert!(rt; matches!(is_written(&mut files, name.as_str()), Ok(true)));
    assert!(rt; replace(&mut files, name.as_str(), b"xyz").is_ok());
    assert!(rt; matches!(holds(&mut files, name.as_str(), *b"xyz"), Ok(true)));
    assert!(rt; fs::remove_dir_all(&rt, folder.as_str()).is_ok());
}

#[test]
fn a_renamed_file_takes_the_place_of_the_other(rt: HostRuntime) {
    let folder = fresh_folder(&rt, "renamed").expect(&rt, "no folder");
    let from = inside(&rt, folder.as_str(), "from").expect(&rt, "no memory");
    let to = inside(&rt, folder.as_str(), "to").expect(&rt, "no memory");
    let mut files = RealFiles::new(&rt, rt.alloc());
    assert!(rt; replace(&mut files, from.as_str(), b"one").is_ok());
    assert!(rt; replace(&mut files, to.as_str(), b"other").is_ok());
    assert!(rt; rename(&mut files, from.as_str(), to.as_str()).is_ok());
    assert!(rt; matches!(holds(&mut files, to.as_str(), *b"one"), Ok(true)));
    let again = rename(&mut files, from.as_str(), to.as_str());
    assert!(rt; again == Err(OpenFault::Absent));
    assert!(rt; fs::remove_dir_all(&rt, folder.as_str()).is_ok());
}

// Whether a symbolic link stands under the path.
fn is_link(rt: &HostRuntime, path: &str) -> bool {
    match fs::symlink_metadata(rt, path) {
        Ok(metadata) => metadata.is_symlink(),
        Err(_) => false,
    }
}

#[test]
fn a_file_renamed_to_a_link_takes_the_place_of_what_it_leads_to(rt: HostRuntime) {
    let folder = fresh_folder(&rt, "linked").expect(&rt, "no folder");
    let from = inside(&rt, folder.as_str(), "from").expect(&rt, "no memory");
    let to = inside(&rt, folder.as_str(), "to").expect(&rt, "no memory");
    let link = inside(&rt, folder.as_str(), "link").expect(&rt, "no memory");
    let mut files = RealFiles::new(&rt, rt.alloc());
    assert!(rt; replace(&mut files, to.as_str(), b"other").is_ok());
    assert!(rt; replace(&mut files, from.as_str(), b"one").is_ok());
    assert!(rt; symlink(&rt, "to", link.as_str()).is_ok());
    assert!(rt; rename(&mut files, from.as_str(), link.as_str()).is_ok());
    assert!(rt; matches!(holds(&mut files, to.as_str(), *b"one"), Ok(true)));
    assert!(rt; is_link(&rt, link.as_str()));
    assert!(rt; fs::remove_dir_all(&rt, folder.as_str()).is_ok());
}

#[test]
fn a_folder_is_not_renamed(rt: HostRuntime) {
    let folder = fresh_folder(&rt, "kept").expect(&rt, "no folder");
    let name = inside(&rt, folder.as_str(), "file").expect(&rt, "no memory");
    let mut files = RealFiles::new(&rt, rt.alloc());
    assert!(rt; replace(&mut files, name.as_str(), b"any").is_ok());
    let over = rename(&mut files, name.as_str(), folder.as_str());
    assert!(rt; over == Err(OpenFault::Failed));
    let away = rename(&mut files, folder.as_str(), name.as_str());
    assert!(rt; away == Err(OpenFault::Failed));
    assert!(rt; fs::remove_dir_all(&rt, folder.as_str()).is_ok());
}

#[test]
fn a_removed_link_leaves_the_file(rt: HostRuntime) {
    let folder = fresh_folder(&rt, "removed").expect(&rt, "no folder");
    let name = inside(&rt, folder.as_str(), "file").expect(&rt, "no memory");
    let link = inside(&rt, folder.as_str(), "link").expect(&rt, "no memory");
    let mut files = RealFiles::new(&rt, rt.alloc());
    assert!(rt; replace(&mut files, name.as_str(), b"any").is_ok());
    assert!(rt; symlink(&rt, "file", link.as_str()).is_ok());
    assert!(rt; remove(&mut files, link.as_str()).is_ok());
    let again = remove(&mut files, link.as_str());
    assert!(rt; again == Err(OpenFault::Absent));
    assert!(rt; matches!(holds(&mut files, name.as_str(), *b"any"), Ok(true)));
    assert!(rt; remove(&mut files, name.as_str()).is_ok());
    assert!(rt; fs::remove_dir_all(&rt, folder.as_str()).is_ok());
}

#[test]
fn what_stands_under_a_name_decides(rt: HostRuntime) {
    let folder = fresh_folder(&rt, "names").expect(&rt, "no folder");
    let name = inside(&rt, folder.as_str(), "name").expect(&rt, "no memory");
    let mut files = RealFiles::new(&rt, rt.alloc());
    assert!(rt; no_view(&mut files, name.as_str()) == Some(OpenFault::Absent));
    assert!(rt; no_look(&mut files, name.as_str()) == Some(OpenFault::Absent));
    assert!(rt; no_view(&mut files, folder.as_str()) == Some(OpenFault::Failed));
    assert!(rt; replace(&mut files, name.as_str(), b"").is_ok());
    assert!(rt; no_look(&mut files, name.as_str()) == Some(OpenFault::Absent));
    assert!(rt; remove(&mut files, folder.as_str()) == Err(OpenFault::Failed));
    assert!(rt; remove(&mut files, name.as_str()).is_ok());
    assert!(rt; remove(&mut files, name.as_str()) == Err(OpenFault::Absent));
    assert!(rt; fs::remove_dir_all(&rt, folder.as_str()).is_ok());
}

#[test]
fn an_empty_file_is_viewed_but_none_that_has_bytes_and_no_size(rt: HostRuntime) {
    let folder = fresh_folder(&rt, "empty").expect(&rt, "no folder");
    let name = inside(&rt, folder.as_str(), "file").expect(&rt, "no memory");
    let mut files = RealFiles::new(&rt, rt.alloc());
    assert!(rt; replace(&mut files, name.as_str(), b"").is_ok());
    assert!(rt; size_of(&mut files, name.as_str()) == Some(0));
    if is_sizeless(&rt, SIZELESS) {
        assert!(rt; no_view(&mut files, SIZELESS) == Some(OpenFault::Failed));
    }
    assert!(rt; fs::remove_dir_all(&rt, folder.as_str()).is_ok());
}
