//! A store in memory that several workers check side by side, over folders that wait for one another. The digests
//! are those of `indexes`.

use crate::compare::{ok, same};
use crate::worker_tests::StoreGate;
use dir_store::store::DirStore;
use dsy_base::fault::{FileFault, IoFault};
use dsy_base::folder::Folder;
use dsy_base::look::Look;
use dsy_base::name::Name;
use dsy_forms::mem_folder::MemFolder;
use dsy_forms::mem_sink::MemSink;
use std::alloc::Global;
use std::process::Abort;
use std::sync::Arc;
use std::thread::Threads;
use store_check::verify::{StoreCheck, verify_store};

// A folder in memory that tells contracts nothing, and is first read through a gate, where it has one.
#[derive(Drop)]
struct GatedFolder {
    folder: MemFolder,
    gate: Option<Arc<StoreGate, Global>>,
}

impl Look for GatedFolder {
    ghost use Rattle.std.specs.Prelude.{None, false, refl};
    ghost use Rattle.std.proofs.Common.{rules};

    ghost files = { λ _. None };

    ghost faults = { λ f. ⟦<MemFolder as Look>⟧.faults f.folder };

    ghost place = { λ f. ⟦<MemFolder as Look>⟧.place f.folder };

    ghost tells = { false };

    ghost never_fails = { false };

    fn read(&mut self, name: &str, out: &mut [u8]) -> Result<usize, FileFault> {
        if let Some(gate) = self.gate.take() {
            gate.wait();
        }
        self.folder.read(name, out)
    }

    fn has(&mut self, name: &str) -> Result<bool, IoFault> {
        self.folder.has(name)
    }

    fn names(&mut self) -> Result<Vec<Name>, IoFault> {
        self.folder.names()
    }

    ghost told = { λ _. refl };

    ghost sure = { Prim.search rules };
}

impl Folder for GatedFolder {
    fn put(&mut self, name: &str, b: &[u8]) -> Result<(), IoFault> {
        self.folder.put(name, b)
    }

    fn remove(&mut self, name: &str) -> Result<bool, IoFault> {
        self.folder.remove(name)
    }
}

const ABC_FILE: &str = "5304/53048e2681941ef99b2e29b76b4c7dabe4c2d0c634fc6d46e0e2f13107e7af23";

const PQR_FILE: &str = "5eda/5edab707759604f989d55b6fb4aaac8de1192b30b7f07d1a6afa442d2e058c8f";

const GHI_FILE: &str = "6312/63123fe62044f1e4dbbf64b82b92ab2eac598efe9171126ddf9faa8865267d99";

const MNO_FILE: &str = "6b34/6b3443850ca9b33d2f554e50266c9316740a1488d1a8b2bc9c99f5a0e56da303";

const JKL_FILE: &str = "7f5a/7f5adb26c3f53b3fed0d67b85b129fc19ee8df23dffdcc40167b3d9833fa3fb0";

const DEF_FILE: &str = "f391/f391834ba55302124fbcfc8df6831a666e468b310e99295e1fce0abf8ef9ec3f";

// Six chunk files, of which the second and the last are damaged.
const FILES: [(&str, &[u8]); 6] = [
    (ABC_FILE, b"abc"),
    (PQR_FILE, b"pqX"),
    (GHI_FILE, b"ghi"),
    (MNO_FILE, b"mno"),
    (JKL_FILE, b"jkl"),
    (DEF_FILE, b""),
];

const DAMAGED: &str = "damaged 5edab707759604f989d55b6fb4aaac8de1192b30b7f07d1a6afa442d2e058c8f\n\
    damaged f391834ba55302124fbcfc8df6831a666e468b310e99295e1fce0abf8ef9ec3f\n";

const REMOVED: &str = "removed 5edab707759604f989d55b6fb4aaac8de1192b30b7f07d1a6afa442d2e058c8f\n\
    removed f391834ba55302124fbcfc8df6831a666e468b310e99295e1fce0abf8ef9ec3f\n";

// These files, which are read through the gate, where calls with these numbers fail.
fn store_of(
    rt: &impl Abort,
    alloc: Global,
    files: &[(&str, &[u8])],
    fails: Vec<u64>,
    gate: Option<Arc<StoreGate, Global>>,
) -> DirStore<GatedFolder> {
    let mut folder = MemFolder::new(alloc, fails);
    for (name, bytes) in files {
        ok(rt, folder.put(name, bytes));
    }
    DirStore::new(GatedFolder { folder, gate })
}

// So many further looks at these files, without a gate.
fn looks_at(
    rt: &impl Abort,
    alloc: Global,
    files: &[(&str, &[u8])],
    count: usize,
) -> Vec<DirStore<GatedFolder>> {
    let mut looks = Vec::new(alloc);
    for _look in 0..count {
        let look = store_of(rt, alloc, files, Vec::new(alloc), None);
        ok(rt, looks.push(look));
    }
    looks
}

// Verifies the store beside the looks, and compares how it ended, what was printed, and how many files are left.
fn verifies<R: Abort + Threads + Sync>(
    rt: &R,
    mut store: DirStore<GatedFolder>,
    mut looks: Vec<DirStore<GatedFolder>>,
    repair: bool,
    ended: Result<u64, StoreCheck>,
    printed: &str,
    left: usize,
) {
    let alloc = *looks.allocator();
    let count = looks.len();
    let mut out = MemSink::new(alloc, Vec::new(alloc));
    let verified = verify_store(rt, alloc, &mut store, &mut looks, repair, &mut out);
    same(rt, verified, ended);
    same(rt, out.taken(), printed.as_bytes());
    same(rt, looks.len(), count);
    same(rt, ok(rt, store.names()).len(), left);
}

// Two workers, which both begin to read before either has read anything.
fn reads_at_once<R: Abort + Threads + Sync>(rt: &R, alloc: Global) {
    let gate = ok(rt, Arc::new(alloc, StoreGate::new()));
    let first = Some(ok(rt, Arc::try_clone(&gate)));
    let other = Some(ok(rt, Arc::try_clone(&gate)));
    let store = store_of(rt, alloc, &FILES, Vec::new(alloc), first);
    let look = store_of(rt, alloc, &FILES, Vec::new(alloc), other);
    let mut looks = Vec::new(alloc);
    ok(rt, looks.push(look));
    verifies(rt, store, looks, false, Ok(2), DAMAGED, 6);
    same(rt, gate.passed(), 2);
}

#[test]
fn two_workers_read_at_once(rt: HostRuntime) {
    reads_at_once(&rt, rt.alloc());
}

#[test]
fn workers_tell_damaged_files_in_order(rt: HostRuntime) {
    let alloc = rt.alloc();
    for count in [0, 1, 2, 31] {
        let store = store_of(&rt, alloc, &FILES, Vec::new(alloc), None);
        let looks = looks_at(&rt, alloc, &FILES, count);
        verifies(&rt, store, looks, false, Ok(2), DAMAGED, 6);
    }
}

#[test]
fn workers_leave_removals_to_the_first(rt: HostRuntime) {
    let alloc = rt.alloc();
    for count in [0, 1, 2, 31] {
        let store = store_of(&rt, alloc, &FILES, Vec::new(alloc), None);
        let looks = looks_at(&rt, alloc, &FILES, count);
        verifies(&rt, store, looks, true, Ok(0), REMOVED, 4);
    }
}

#[test]
fn workers_find_nothing_in_an_empty_store(rt: HostRuntime) {
    let alloc = rt.alloc();
    let store = store_of(&rt, alloc, &[], Vec::new(alloc), None);
    verifies(
        &rt,
        store,
        looks_at(&rt, alloc, &[], 31),
        true,
        Ok(0),
        "",
        0,
    );
}

// Six puts, and then each call fails.
#[test]
fn a_fault_of_another_look_changes_nothing(rt: HostRuntime) {
    let alloc = rt.alloc();
    let mut later = Vec::new(alloc);
    for call in 6..64u64 {
        ok(&rt, later.push(call));
    }
    let store = store_of(&rt, alloc, &FILES, Vec::new(alloc), None);
    let mut looks = looks_at(&rt, alloc, &FILES, 1);
    ok(&rt, looks.push(store_of(&rt, alloc, &FILES, later, None)));
    verifies(&rt, store, looks, true, Ok(0), REMOVED, 4);
}
