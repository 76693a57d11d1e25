//! Tests of files that are split and rejoined.

ghost use Rattle.std.specs.Prelude.{◌≡◌, IfSome, length};
ghost use Rattle.std.specs.List.{sum_by};

use crate::fresh_folder::{fresh_folder, inside};
use dsy_base::files::Files;
use dsy_base::view::{Part, Target, View};
use dsy_real::real_files::RealFiles;
use std::fs;
use std::process::Abort;

// Whether these two bytes stand at offset `at`.
fn reads<V: View>(v: &mut V, at: u64, want: [u8; 2]) -> bool
    ensures kept { V.held v.new ≡ V.held v.old }
{
    let mut out = [0; 2];
    let size = v.size();
    at <= size && 2 <= size - at && v.read_at(at, &mut out).is_ok() && out == want
}

// Whether these two bytes are written at offset `at`.
fn writes<P: Part>(p: &mut P, at: u64, b: [u8; 2]) -> bool {
    let size = p.size();
    at <= size && 2 <= size - at && p.write_at(at, &b).is_ok()
}

fn sizes<P: View>(parts: &[P]) -> Option<u64>
    ensures { IfSome result (λ n. n ≡ sum_by (λ p. (P.held p).size) parts.now) }
{
    let mut total: u64 = 0;
    for part in parts.iter() {
        total = total.checked_add(part.size())?;
    }
    Some(total)
}

// The target of six bytes, once its parts before and after offset 2 were written.
fn written_in_parts<T: Target>(rt: &impl Abort, t: T) -> T
    ensures { (T.held result).name ≡ (T.held t).name }
{
    assert!(rt; t.size() == 6);
    let (rest, mut parts) = t.split(&[2, 6]).ok().expect(rt, "it isn't split");
    assert!(rt; parts[0].size() == 2 && parts[1].size() == 4);
    assert!(rt; reads(&mut parts[1], 2, *b"ef"));
    assert!(rt; writes(&mut parts[0], 0, *b"AB"));
    assert!(rt; writes(&mut parts[1], 1, *b"xy"));
    assert!(rt; sizes(&parts) == Some(6));
    T::rejoin(rest, parts)
}

#[test]
fn a_rejoined_file_holds_what_its_parts_were_given(rt: HostRuntime) {
    let folder = fresh_folder(&rt, "split").expect(&rt, "no folder");
    let name = inside(&rt, folder.as_str(), "file").expect(&rt, "no memory");
    let mut files = RealFiles::new(&rt, rt.alloc());
    let mut target = files
        .take(name.as_str(), false)
        .expect(&rt, "it isn't taken");
    assert!(rt; target.set_len(6).is_ok() && target.write_at(0, b"abcdef").is_ok());
    let mut target = written_in_parts(&rt, target);
    assert!(rt; reads(&mut target, 0, *b"AB"));
    assert!(rt; reads(&mut target, 2, *b"cx"));
    assert!(rt; reads(&mut target, 4, *b"yf"));
    files.give(name.as_str(), target);
    assert!(rt; fs::remove_dir_all(&rt, folder.as_str()).is_ok());
}
