//! Tests of the forms in memory. Those that hold of every form go through the bounds of its trait.

use crate::compare::{ok, same};
use crate::ranges::{holds, reads, writes};
use byte_forms::calls::Fails;
use byte_forms::mem_target::MemTarget;
use byte_forms::mem_view::MemView;
use byte_forms::ranges::RangeFails;
use dsy_base::fault::{FileFault, IoFault, OpenFault};
use dsy_base::files::Files;
use dsy_base::folder::Folder;
use dsy_base::look::Look;
use dsy_base::sink::Sink;
use dsy_base::temporary::temporary_name;
use dsy_base::view::{Target, View};
use dsy_forms::mem_files::MemFiles;
use dsy_forms::mem_folder::MemFolder;
use dsy_forms::mem_sink::MemSink;
use dsy_forms::memory_files::MemoryFiles;
use std::alloc::Global;
use std::process::Abort;

// The file of this name holds these bytes.
fn file_holds<F: Files>(rt: &impl Abort, alloc: Global, files: &mut F, name: &str, want: &[u8]) {
    let mut v = ok(rt, files.view(name));
    holds(rt, alloc, &mut v, want);
}

// No view of this name is given.
fn is_absent<F: Files>(rt: &impl Abort, files: &mut F, name: &str) {
    same(rt, files.view(name).err(), Some(OpenFault::Absent));
}

fn targets_are_written_by_place<T: Target>(rt: &impl Abort, alloc: Global, mut t: T) {
    ok(rt, t.set_len(4));
    same(rt, writes(&mut t, 1, b"abc"), true);
    same(rt, writes(&mut t, 2, b"x"), true);
    holds(rt, alloc, &mut t, b"\0axc");
    ok(rt, t.set_len(3));
    ok(rt, t.set_len(6));
    holds(rt, alloc, &mut t, b"\0ax\0\0\0");
}

fn folders_list_what_is_put<D: Folder>(rt: &impl Abort, d: &mut D) {
    for name in ["b", "a/c", "a/b/c", "a"] {
        ok(rt, d.put(name, name.as_bytes()));
    }
    let names = ok(rt, d.names());
    same(rt, names.len(), 3);
    for (name, want) in names.iter().zip(["a", "a/c", "b"]) {
        same(rt, name.as_str(), want);
    }
}

fn folders_read_what_is_put<D: Folder>(rt: &impl Abort, d: &mut D) {
    let mut out = [0u8; 3];
    same(rt, d.read("a", &mut out), Ok(1));
    same(rt, d.read("a/b/c", &mut out), Err(FileFault::Longer));
    same(rt, d.read("c", &mut out), Err(FileFault::Absent));
    same(rt, d.read("a/c", &mut out), Ok(3));
    same(rt, out, *b"a/c");
    for (name, want) in [("a/b/c", true), ("a/b/c", false), ("c", false)] {
        same(rt, d.has(name), Ok(want));
        same(rt, d.remove(name), Ok(want));
    }
}

fn files_are_absent_while_taken<F: Files>(rt: &impl Abort, files: &mut F, fresh: bool, size: u64) {
    ok(rt, files.replace("f", b"old"));
    let t = ok(rt, files.take("f", fresh));
    same(rt, t.size(), size);
    same(rt, files.view("f").err(), Some(OpenFault::Absent));
    files.give("f", t);
}

fn a_renamed_file_takes_the_place_of_the_other<F: Files>(
    rt: &impl Abort,
    alloc: Global,
    files: &mut F,
) {
    ok(rt, files.replace("a", b"new"));
    ok(rt, files.replace("b", b"old"));
    same(rt, files.rename("a", "b"), Ok(()));
    is_absent(rt, files, "a");
    file_holds(rt, alloc, files, "b", b"new");
    same(rt, files.rename("a", "b"), Err(OpenFault::Absent));
    file_holds(rt, alloc, files, "b", b"new");
}

fn a_removed_file_is_absent<F: Files>(rt: &impl Abort, alloc: Global, files: &mut F) {
    ok(rt, files.replace("a", b"gone"));
    ok(rt, files.replace("b", b"stays"));
    for want in [Ok(()), Err(OpenFault::Absent)] {
        same(rt, files.remove("a"), want);
        is_absent(rt, files, "a");
        file_holds(rt, alloc, files, "b", b"stays");
    }
}

fn a_taken_file_is_not_renamed<F: Files>(rt: &impl Abort, alloc: Global, files: &mut F) {
    ok(rt, files.replace("a", b"taken"));
    let t = ok(rt, files.take("a", false));
    same(rt, files.rename("a", "b"), Err(OpenFault::Absent));
    ok(rt, files.replace("b", b"new"));
    ok(rt, files.rename("b", "a"));
    files.give("a", t);
    file_holds(rt, alloc, files, "a", b"taken");
}

#[test]
fn targets_and_views_without_failing_calls(rt: HostRuntime) {
    let alloc = rt.alloc();
    let target = MemTarget::new(alloc, Vec::new(alloc), RangeFails::none(alloc));
    targets_are_written_by_place(&rt, alloc, target);
    let mut view = MemView::new(alloc, ok(&rt, b"view".to_vec(alloc)), Vec::new(alloc));
    holds(&rt, alloc, &mut view, b"view");
}

#[test]
fn folders_without_failing_calls(rt: HostRuntime) {
    let mut d = MemFolder::new(rt.alloc(), Vec::new(rt.alloc()));
    folders_list_what_is_put(&rt, &mut d);
    folders_read_what_is_put(&rt, &mut d);
}

#[test]
fn files_without_failing_calls(rt: HostRuntime) {
    let alloc = rt.alloc();
    let mut files = MemFiles::new(alloc, Vec::new(alloc));
    files_are_absent_while_taken(&rt, &mut files, false, 3);
    file_holds(&rt, alloc, &mut files, "f", b"old");
    files_are_absent_while_taken(&rt, &mut files, true, 0);
    file_holds(&rt, alloc, &mut files, "f", b"");
}

#[test]
fn files_are_renamed_and_removed(rt: HostRuntime) {
    let alloc = rt.alloc();
    let mut files = MemFiles::new(alloc, Vec::new(alloc));
    a_renamed_file_takes_the_place_of_the_other(&rt, alloc, &mut files);
    a_removed_file_is_absent(&rt, alloc, &mut files);
    a_taken_file_is_not_renamed(&rt, alloc, &mut files);
}

#[test]
fn a_failing_rename_or_remove_leaves_the_files(rt: HostRuntime) {
    let alloc = rt.alloc();
    let mut files = MemFiles::new(alloc, ok(&rt, vec![in alloc; 1u64, 2]));
    ok(&rt, files.replace("a", b"new"));
    same(&rt, files.rename("a", "b"), Err(OpenFault::Failed));
    same(&rt, files.remove("a"), Err(OpenFault::Failed));
    same(&rt, files.file("a"), Some(b"new".as_slice()));
    same(&rt, files.file("b"), None);
}

#[test]
fn a_renamed_file_keeps_the_calls_that_fail(rt: HostRuntime) {
    let alloc = rt.alloc();
    let mut stated = RangeFails::none(alloc);
    stated.set_len = 1;
    let mut files = MemFiles::new(alloc, Vec::new(alloc));
    let old = ok(&rt, b"old".to_vec(alloc));
    same(&rt, files.set_file("a", old, stated).is_ok(), true);
    same(&rt, files.rename("a", "b"), Ok(()));
    let mut t = ok(&rt, files.take("b", false));
    same(&rt, t.set_len(2), Err(IoFault::Failed));
    same(&rt, t.set_len(2), Ok(()));
}

#[test]
fn files_are_set_and_shown(rt: HostRuntime) {
    let alloc = rt.alloc();
    let mut files = MemFiles::new(alloc, Vec::new(alloc));
    let bytes = ok(&rt, b"set".to_vec(alloc));
    same(
        &rt,
        files.set_file("f", bytes, RangeFails::none(alloc)).is_ok(),
        true,
    );
    same(&rt, files.file("f"), Some(b"set".as_slice()));
    same(&rt, files.file("d"), None);
    let folder = MemFolder::new(alloc, Vec::new(alloc));
    same(&rt, files.set_folder("d", folder).is_ok(), true);
    same(&rt, files.folder("d").is_some(), true);
    same(&rt, files.folder("f").is_some(), false);
}

// The second and the fourth call.
fn fails(rt: &impl Abort, alloc: Global) -> Fails {
    ok(rt, vec![in alloc; 1u64, 3])
}

#[test]
fn listed_calls_fail(rt: HostRuntime) {
    let alloc = rt.alloc();
    let mut sink = MemSink::new(alloc, fails(&rt, alloc));
    let mut view = MemView::new(alloc, Vec::new(alloc), fails(&rt, alloc));
    for (b, want) in [
        (b"a", true),
        (b"b", false),
        (b"c", true),
        (b"d", false),
        (b"e", true),
    ] {
        same(&rt, sink.put(b).is_ok(), want);
        same(&rt, reads(&mut view, 0, &mut []), want);
    }
    same(&rt, sink.taken(), b"ace".as_slice());
}

#[test]
fn listed_calls_on_files_fail(rt: HostRuntime) {
    let alloc = rt.alloc();
    let mut files = MemFiles::new(alloc, fails(&rt, alloc));
    is_absent(&rt, &mut files, "f");
    same(&rt, files.take("f", true).err(), Some(IoFault::Failed));
    same(&rt, files.replace("f", b"new"), Ok(()));
    same(&rt, files.look("d").err(), Some(OpenFault::Failed));
    same(&rt, files.take_folder("d").err(), Some(OpenFault::Absent));
}

fn a_failing_put_leaves(rt: &impl Abort, alloc: Global, name: &str, temporary: &str) {
    same(rt, ok(rt, temporary_name(alloc, name)).as_str(), temporary);
    let mut d = MemFolder::new(alloc, ok(rt, vec![in alloc; 0u64]));
    let mut out = [0u8; 3];
    same(rt, d.put(name, b"abc"), Err(IoFault::Failed));
    same(rt, d.read(temporary, &mut out), Ok(3));
    same(rt, d.has(name), Ok(false));
    ok(rt, d.put(name, b"def"));
    same(rt, d.has(temporary), Ok(false));
}

#[test]
fn a_failing_put_leaves_its_temporary_file(rt: HostRuntime) {
    a_failing_put_leaves(&rt, rt.alloc(), "f", ".tmp-cacnkf");
    a_failing_put_leaves(&rt, rt.alloc(), "d/e/f", "d/e/.tmp-cacnkf");
}

#[test]
fn a_failing_write_fills_its_range(rt: HostRuntime) {
    let alloc = rt.alloc();
    let mut stated = RangeFails::none(alloc);
    stated.writes = ok(&rt, vec![in alloc; (2u64, 2u32)]);
    let mut t = MemTarget::new(alloc, ok(&rt, b"----".to_vec(alloc)), stated);
    same(&rt, writes(&mut t, 0, b"ab"), true);
    same(&rt, writes(&mut t, 1, b"cd"), false);
    same(&rt, writes(&mut t, 2, b"ef"), false);
    same(&rt, writes(&mut t, 2, b"gh"), true);
    same(&rt, t.bytes(), b"a\xeegh".as_slice());
}

// The second byte of the file can't be read the first time.
fn the_first_read_fails<F: Files>(rt: &impl Abort, files: &mut F) {
    let mut v = ok(rt, files.view("f"));
    same(rt, reads(&mut v, 0, &mut [0]), true);
    same(rt, reads(&mut v, 1, &mut [0]), false);
    same(rt, reads(&mut v, 1, &mut [0]), true);
}

#[test]
fn each_view_has_the_reads_that_fail(rt: HostRuntime) {
    let alloc = rt.alloc();
    let mut stated = RangeFails::none(alloc);
    stated.reads = ok(&rt, vec![in alloc; (1u64, 1u32)]);
    stated.set_len = 1;
    let mut files = MemFiles::new(alloc, Vec::new(alloc));
    same(&rt, files.set_target_fails("f", stated).is_ok(), true);
    let mut t = ok(&rt, files.take("f", false));
    same(&rt, t.set_len(2), Err(IoFault::Failed));
    same(&rt, t.set_len(2), Ok(()));
    files.give("f", t);
    the_first_read_fails(&rt, &mut files);
    the_first_read_fails(&rt, &mut files);
}

#[test]
fn looks_hold_what_stood_there(rt: HostRuntime) {
    let alloc = rt.alloc();
    let mut d = MemFolder::new(alloc, ok(&rt, vec![in alloc; 1u64]));
    ok(&rt, d.put("a", b"1"));
    let mut files = MemFiles::new(alloc, Vec::new(alloc));
    same(&rt, files.set_folder("d", d).is_ok(), true);
    let mut look = ok(&rt, files.look("d"));

    // The folder's own second call, and the look's, are to fail.
    let mut d = ok(&rt, files.take_folder("d"));
    same(&rt, d.remove("a"), Err(IoFault::Failed));
    same(&rt, d.remove("a"), Ok(true));
    same(&rt, look.has("a"), Ok(true));
    same(&rt, look.has("a"), Err(IoFault::Failed));
    same(&rt, look.has("a"), Ok(true));
}
