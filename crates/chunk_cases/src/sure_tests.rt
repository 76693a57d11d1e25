//! Tests of the forms in memory that never fail.

use crate::compare::{ok, same};
use crate::ranges::{ends_in, writes};
use dsy_base::fault::{FileFault, OpenFault};
use dsy_base::files::Files;
use dsy_base::folder::Folder;
use dsy_base::look::Look;
use dsy_base::sink::Sink;
use dsy_base::view::{Target, View};
use dsy_forms::memory_files::MemoryFiles;
use dsy_sure::sure_bytes::SureBytes;
use dsy_sure::sure_files::SureFiles;
use dsy_sure::sure_folder::SureFolder;
use dsy_sure::sure_sink::SureSink;
use std::alloc::Global;
use std::process::Abort;

#[test]
fn a_sink_takes_what_is_put(rt: HostRuntime) {
    let mut sink = SureSink::new(rt.alloc());
    ok(&rt, sink.put(b"ab"));
    ok(&rt, sink.put(b""));
    ok(&rt, sink.put(b"c"));
    same(&rt, sink.taken(), b"abc".as_slice());
}

#[test]
fn a_view_is_read_by_place(rt: HostRuntime) {
    let alloc = rt.alloc();
    let mut view = SureBytes::new(alloc, ok(&rt, b"view".to_vec(alloc)));
    ends_in(&rt, alloc, &mut view, 0, b"view");
    ends_in(&rt, alloc, &mut view, 1, b"iew");
}

#[test]
fn a_target_is_written_by_place(rt: HostRuntime) {
    let alloc = rt.alloc();
    let mut t = SureBytes::new(alloc, ok(&rt, b"old".to_vec(alloc)));
    ok(&rt, t.set_len(5));
    same(&rt, writes(&mut t, 1, b"xy"), true);
    ends_in(&rt, alloc, &mut t, 1, b"xy\0\0");
    ok(&rt, t.set_len(2));
    same(&rt, t.bytes(), b"ox".as_slice());
}

// "b" is put twice, and a temporary file once.
fn fill(rt: &impl Abort, d: &mut SureFolder) {
    for name in ["b", "a/c", "a/b/c", ".tmp-cacnkb"] {
        ok(rt, d.put(name, name.as_bytes()));
    }
    ok(rt, d.put("b", b"new"));
}

fn two_are_listed(rt: &impl Abort, d: &mut SureFolder) {
    let names = ok(rt, d.names());
    same(rt, names.len(), 2);
    for (name, want) in names.iter().zip(["a/c", "b"]) {
        same(rt, name.as_str(), want);
    }
}

#[test]
fn a_folder_lists_and_reads_what_is_put(rt: HostRuntime) {
    let mut d = SureFolder::new(rt.alloc());
    fill(&rt, &mut d);
    two_are_listed(&rt, &mut d);
    let mut out = [0u8; 3];
    same(&rt, d.read("a/b/c", &mut out), Err(FileFault::Longer));
    same(&rt, d.read("c", &mut out), Err(FileFault::Absent));
    same(&rt, d.read("b", &mut out), Ok(3));
    same(&rt, out, *b"new");
    for want in [true, false] {
        same(&rt, d.has("b"), Ok(want));
        same(&rt, d.remove("b"), Ok(want));
    }
}

#[test]
fn files_are_set_replaced_renamed_and_removed(rt: HostRuntime) {
    let alloc = rt.alloc();
    let mut files = SureFiles::new(alloc);
    let old = ok(&rt, b"old".to_vec(alloc));
    same(&rt, files.set_file("a", old).is_ok(), true);
    same(&rt, files.file("a"), Some(b"old".as_slice()));
    ok(&rt, files.replace("a", b"new"));
    same(&rt, files.rename("a", "b"), Ok(()));
    same(&rt, files.rename("a", "b"), Err(OpenFault::Absent));
    same(&rt, files.file("a"), None);
    same(&rt, files.file("b"), Some(b"new".as_slice()));
    same(&rt, files.remove("b"), Ok(()));
    same(&rt, files.remove("b"), Err(OpenFault::Absent));
}

fn a_file_is_taken(
    rt: &impl Abort,
    alloc: Global,
    files: &mut SureFiles,
    fresh: bool,
    left: &[u8],
) {
    ok(rt, files.replace("f", b"old"));
    let mut before = ok(rt, files.view("f"));
    let t = ok(rt, files.take("f", fresh));
    same(rt, files.view("f").err(), Some(OpenFault::Absent));
    files.give("f", t);
    same(rt, files.file("f"), Some(left));
    ends_in(rt, alloc, &mut before, 0, b"old");
}

#[test]
fn files_are_absent_while_taken(rt: HostRuntime) {
    let alloc = rt.alloc();
    let mut files = SureFiles::new(alloc);
    a_file_is_taken(&rt, alloc, &mut files, false, b"old");
    a_file_is_taken(&rt, alloc, &mut files, true, b"");
    same(&rt, ok(&rt, files.take("g", false)).size(), 0);
}

#[test]
fn looks_hold_what_stood_there(rt: HostRuntime) {
    let alloc = rt.alloc();
    let mut d = SureFolder::new(alloc);
    ok(&rt, d.put("a", b"1"));
    let mut files = SureFiles::new(alloc);
    same(&rt, files.set_folder("d", d).is_ok(), true);
    let mut look = ok(&rt, files.look("d"));
    let mut d = ok(&rt, files.take_folder("d"));
    same(&rt, d.remove("a"), Ok(true));
    same(&rt, files.folder("d").is_none(), true);
    same(&rt, files.look("d").err(), Some(OpenFault::Absent));
    files.give_folder("d", d);
    same(&rt, files.folder("d").is_some(), true);
    same(&rt, look.has("a"), Ok(true));
}
