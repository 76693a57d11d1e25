//! Index files by the bytes of two images, whole, cut short and with single bytes changed. Places
//! are offsets in the file.

use crate::compare::{ok, same};
use byte_forms::mem_view::MemView;
use caibx_codec::index::{Entry, Index};
use caibx_codec::reader::IndexReader;
use caibx_codec::reading::{ReadFault, ViewFault, read_index};
use caibx_codec::writing::write_index;
use caibx_fields::fault::IndexFault;
use chunk_store::id::{ChunkId, DigestKind};
use dsy_forms::mem_sink::MemSink;
use std::alloc::Global;
use std::process::Abort;

// The index of the image "abc" in one chunk.
#[rattlefmt::skip]
const ABC: [u8; 144] = [
    0x30, 0, 0, 0, 0, 0, 0, 0, 0xf9, 0x9f, 0x12, 0x7b, 0x9c, 0x4d, 0x82, 0x96,
    0, 0, 0, 0, 0, 0, 0, 0xa0, 0, 0x40, 0, 0, 0, 0, 0, 0,
    0, 0, 1, 0, 0, 0, 0, 0, 0, 0, 4, 0, 0, 0, 0, 0,
    0xff, 0xff, 0xff, 0xff, 0xff, 0xff, 0xff, 0xff, 0x7d, 0x41, 0x17, 0x2f, 0x11, 0x9e, 0x5b, 0xe7,
    3, 0, 0, 0, 0, 0, 0, 0, 0x53, 0x04, 0x8e, 0x26, 0x81, 0x94, 0x1e, 0xf9,
    0x9b, 0x2e, 0x29, 0xb7, 0x6b, 0x4c, 0x7d, 0xab, 0xe4, 0xc2, 0xd0, 0xc6, 0x34, 0xfc, 0x6d, 0x46,
    0xe0, 0xe2, 0xf1, 0x31, 0x07, 0xe7, 0xaf, 0x23, 0, 0, 0, 0, 0, 0, 0, 0,
    0, 0, 0, 0, 0, 0, 0, 0, 0x30, 0, 0, 0, 0, 0, 0, 0,
    0x60, 0, 0, 0, 0, 0, 0, 0, 0xd1, 0xec, 0x49, 0x55, 0x0e, 0x05, 0x4f, 0x4b,
];

// The index of an empty image: what stands before the items, and the tail.
#[rattlefmt::skip]
const EMPTY: [u8; 104] = [
    0x30, 0, 0, 0, 0, 0, 0, 0, 0xf9, 0x9f, 0x12, 0x7b, 0x9c, 0x4d, 0x82, 0x96,
    0, 0, 0, 0, 0, 0, 0, 0xa0, 0, 0x40, 0, 0, 0, 0, 0, 0,
    0, 0, 1, 0, 0, 0, 0, 0, 0, 0, 4, 0, 0, 0, 0, 0,
    0xff, 0xff, 0xff, 0xff, 0xff, 0xff, 0xff, 0xff, 0x7d, 0x41, 0x17, 0x2f, 0x11, 0x9e, 0x5b, 0xe7,
    0, 0, 0, 0, 0, 0, 0, 0, 0, 0, 0, 0, 0, 0, 0, 0,
    0x30, 0, 0, 0, 0, 0, 0, 0, 0x38, 0, 0, 0, 0, 0, 0, 0,
    0xd1, 0xec, 0x49, 0x55, 0x0e, 0x05, 0x4f, 0x4b,
];

// The number of chunks in the file that has these two parts.
fn read(alloc: Global, front: &[u8], back: &[u8]) -> Result<usize, ReadFault> {
    let mut reader = IndexReader::new(alloc);
    reader.feed(front)?;
    reader.feed(back)?;
    Ok(reader.finish()?.count())
}

// The one-chunk file with other bytes at these places.
fn changed(rt: &impl Abort, alloc: Global, changes: &[(usize, u8)]) -> Vec<u8> {
    let mut bytes = ok(rt, Vec::from_slice(alloc, &ABC));
    for (place, byte) in changes {
        if *place < bytes.len() {
            bytes[*place] = *byte;
        }
    }
    bytes
}

fn view_of(rt: &impl Abort, alloc: Global, file: &[u8]) -> MemView {
    let bytes = ok(rt, Vec::from_slice(alloc, file));
    MemView::new(alloc, bytes, Vec::new(alloc))
}

// The numbers that an index tells: of its head, and how much it lists.
fn numbers(index: &Index) -> [u64; 6] {
    [
        index.flags(),
        index.min(),
        index.avg(),
        index.max(),
        index.count() as u64,
        index.length(),
    ]
}

// The file lists this many chunks, of this many bytes together, and is written again from what it lists.
fn is_an_index(rt: &impl Abort, alloc: Global, file: &[u8], count: u64, length: u64) -> Index {
    let index = ok(rt, read_index(alloc, &mut view_of(rt, alloc, file)));
    let want = [
        0xa000_0000_0000_0000,
        16_384,
        65_536,
        262_144,
        count,
        length,
    ];
    same(rt, numbers(&index), want);
    let mut sink = MemSink::new(alloc, Vec::new(alloc));
    same(rt, write_index(alloc, &index, &mut sink), Ok(()));
    same(rt, sink.taken(), file);
    index
}

#[test]
fn files_are_read_and_written_again(rt: HostRuntime) {
    let alloc = rt.alloc();
    is_an_index(&rt, alloc, &EMPTY, 0, 0);
    let index = is_an_index(&rt, alloc, &ABC, 1, 3);
    assert!(rt; 0 < index.count());
    same(
        &rt,
        index.id(0),
        ChunkId::of(DigestKind::Sha512T256, b"abc"),
    );
}

// What is read is refused with this fault.
fn bad(fault: IndexFault) -> Result<usize, ReadFault> {
    Err(ReadFault::Bad(fault))
}

#[test]
fn cut_files_are_truncated_where_they_end(rt: HostRuntime) {
    let alloc = rt.alloc();
    for at in 0..EMPTY.len() {
        let (front, back) = EMPTY.split_at(at);
        let truncated = IndexFault::Truncated { at: at as u64 };
        same(&rt, read(alloc, front, &[]), bad(truncated));
        same(&rt, read(alloc, front, back), Ok(0));
    }
    same(&rt, read(alloc, &EMPTY, &[0]), bad(IndexFault::Trailing));
    same(
        &rt,
        read(alloc, &[49, 0, 0, 0, 0, 0, 0, 0], &[0]),
        bad(IndexFault::Head),
    );
}

// How many chunks are listed by the one-chunk file with these changes.
fn counts(rt: &impl Abort, alloc: Global, changes: &[(usize, u8)], want: Result<usize, ViewFault>) {
    let bytes = changed(rt, alloc, changes);
    let mut view = MemView::new(alloc, bytes, Vec::new(alloc));
    let got = match read_index(alloc, &mut view) {
        Ok(index) => Ok(index.count()),
        Err(fault) => Err(fault),
    };
    same(rt, got, want);
}

fn refused(rt: &impl Abort, alloc: Global, changes: &[(usize, u8)], fault: IndexFault) {
    counts(rt, alloc, changes, Err(ViewFault::Bad(fault)));
}

#[test]
fn each_wrong_field_has_its_fault(rt: HostRuntime) {
    let alloc = rt.alloc();
    let max = 0x0504_0000;
    refused(&rt, alloc, &[(0, 49)], IndexFault::Head);
    refused(&rt, alloc, &[(8, 0)], IndexFault::Head);
    refused(&rt, alloc, &[(43, 5)], IndexFault::MaxSize { max });
    refused(&rt, alloc, &[(48, 0)], IndexFault::Table);
    refused(&rt, alloc, &[(56, 0)], IndexFault::Table);
    let too_large = IndexFault::TooLarge { entry: 0, size: 3 };
    refused(&rt, alloc, &[(42, 0), (40, 2)], too_large);
    refused(&rt, alloc, &[(112, 1)], IndexFault::Tail);
    refused(&rt, alloc, &[(136, 0)], IndexFault::Tail);
    refused(&rt, alloc, &[(104, 3)], IndexFault::Order { entry: 1 });
}

#[test]
fn what_no_rule_speaks_of_is_taken(rt: HostRuntime) {
    let alloc = rt.alloc();
    counts(&rt, alloc, &[(120, 0), (128, 0)], Ok(1));
    counts(&rt, alloc, &[(16, 0xff), (23, 0x20)], Ok(1));
    counts(&rt, alloc, &[(23, 0x80)], Ok(1));
    counts(&rt, alloc, &[(23, 0)], Ok(1));
    counts(&rt, alloc, &[(42, 0), (40, 3)], Ok(1));
    counts(&rt, alloc, &[(24, 0xff), (32, 0)], Ok(1));
}

// What names the chunks of the one-chunk file whose flags end with this byte.
fn kind_by(rt: &impl Abort, alloc: Global, last: u8, want: DigestKind) {
    let bytes = changed(rt, alloc, &[(23, last)]);
    let mut view = MemView::new(alloc, bytes, Vec::new(alloc));
    let index = ok(rt, read_index(alloc, &mut view));
    same(rt, index.kind(), want);
}

#[test]
fn flags_say_which_digest_names_chunks(rt: HostRuntime) {
    let alloc = rt.alloc();
    kind_by(&rt, alloc, 0xa0, DigestKind::Sha512T256);
    kind_by(&rt, alloc, 0x20, DigestKind::Sha512T256);
    kind_by(&rt, alloc, 0x80, DigestKind::Sha256);
    kind_by(&rt, alloc, 0xdf, DigestKind::Sha256);
}

#[test]
fn a_reader_that_refused_answers_over(rt: HostRuntime) {
    let mut reader = IndexReader::new(rt.alloc());
    let head = ReadFault::Bad(IndexFault::Head);
    same(&rt, reader.feed(&[0; 8]), Err(head));
    same(&rt, reader.feed(&EMPTY), Err(ReadFault::Over));
    same(&rt, reader.finish().err(), Some(ReadFault::Over));
}

// The first fault of two chunks with these ends.
fn judged(rt: &impl Abort, alloc: Global, flags: u64, max: u64, ends: [u64; 2], want: IndexFault) {
    let id = ChunkId([7; 32]);
    let [first, second] = ends;
    let entries = ok(
        rt,
        vec![in alloc; Entry { end: first, id }, Entry { end: second, id }],
    );
    let got = Index::new(flags, 1, 2, max, entries);
    same(rt, got.err(), Some(want));
}

#[test]
fn what_is_no_index_has_its_first_fault(rt: HostRuntime) {
    let alloc = rt.alloc();
    let over = 67_108_865;
    let flags = 0x8000_0000_0000_0000;
    judged(
        &rt,
        alloc,
        flags,
        over,
        [0, 0],
        IndexFault::MaxSize { max: over },
    );
    judged(&rt, alloc, flags, 8, [0, 0], IndexFault::Order { entry: 0 });
    let too_large = IndexFault::TooLarge { entry: 0, size: 9 };
    judged(&rt, alloc, flags, 8, [9, 9], too_large);
    judged(&rt, alloc, flags, 8, [8, 8], IndexFault::Order { entry: 1 });
}
