//! Words that are refused, with their places, and words that are read.

use crate::compare::{ok, same};
use chunk_store::id::DigestKind;
use command_line::read_words;
use command_words::command::{Command, Groups, Location};
use command_words::usage::WordsFault;
use dsy_base::name::Name;
use std::alloc::{AllocError, Global};
use std::process::Abort;

// The words of a line, of which `''` stands for the empty one.
pub(crate) fn words_of(rt: &impl Abort, alloc: Global, line: &str) -> Vec<String> {
    let mut all = Vec::new(alloc);
    for word in line.split_whitespace() {
        let word = if word == "''" { "" } else { word };
        push(rt, &mut all, word);
    }
    all
}

fn push(rt: &impl Abort, words: &mut Vec<String>, word: &str) {
    let word = ok(rt, String::from_str(*words.allocator(), word));
    ok(rt, words.push(word));
}

// Words, the place at which they are refused, and why.
const REFUSED: &str = "\
-> 0 NoCommand
frob -> 0 UnknownCommand
--help x -> 0 UnknownCommand
extract -k a b -> 4 MissingOption
make -s st -n 33 a b -> 4 BadNumber
make -s https://h/ a b -> 2 BadLocation
prune -s st a.caibx b.caibx -> 5 NeedsYes
make -s st -n 0 a b -> 4 BadNumber
make -s st -n 04 a b -> 4 BadNumber
make -s st -n '' a b -> 4 BadNumber
make -s st -n +1 a b -> 4 BadNumber
make -s st -m 16:64:10000000 a b -> 4 BadSizes
make -s st -m 16:64 a b -> 4 BadSizes
make -s st -m 16:64:256:1 a b -> 4 BadSizes
make -s st -m '' a b -> 4 BadSizes
make -s st a '' -> 4 Empty
make -s st a b c -> 5 Operands
make -s st a b '' -> 5 Empty
make -s st a -> 4 Operands
make -s st --store st a b -> 3 TooMany
make -s st -s -> 3 TooMany
make a b -s -> 4 NoValue
make - a -> 1 UnknownOption
make --help a -> 1 UnknownOption
make -k a -> 1 UnknownOption
list-chunks -n 1 a -> 1 UnknownOption
extract -s st -c '' i o -> 4 Empty
extract -s '' i o -> 2 Empty
extract -s st --seed .caibx i o -> 4 BadSeed
extract -s st --seed x i o -> 4 BadSeed
extract -s st --seed '' i o -> 4 Empty
make -s a|b i o -> 2 BadLocation
chop -s a|b i o -> 2 BadLocation
verify -s a|b -> 2 BadLocation
prune -s a|b -y i -> 2 BadLocation
index-server -s a|b -l h:1 -> 2 BadLocation
extract -s x| i o -> 2 Empty
extract -s |x i o -> 2 Empty
cat -s a||b i -> 2 Empty
cache -s | -c c i -> 2 Empty
info -s https://h/| i -> 2 Empty
info -s a|https://h/ i -> 2 BadLocation
extract -s http://h/|http://h/?q i o -> 2 BadLocation
extract -s a|b|c|d|e|f|g|h|i|j|k|l|m|n|o|p|q i o -> 2 TooMany
extract -s a|b|c|d|e|f|g|h -s i|j|k|l|m|n|o|p|q i o -> 4 TooMany
cat -s a|b|c|d|e|f|g|h|i|j|k|l|m|n|o|p -s q i -> 4 TooMany
info -s |||||||||||||||| i -> 2 TooMany
extract -e 17 -s st i o -> 2 BadNumber
cat -e -1 -s st i -> 2 BadNumber
cache -s st -c c -e '' i -> 6 BadNumber
info --error-retry 01 i -> 2 BadNumber
extract -s st -e 0 --error-retry 1 i o -> 5 TooMany
info i -e -> 3 NoValue
make -e 1 -s st i o -> 1 UnknownOption
chop -e 1 -s st i o -> 1 UnknownOption
verify -s st --error-retry 1 -> 3 UnknownOption
prune -s st -y -e 1 i -> 4 UnknownOption
list-chunks -e 1 i -> 1 UnknownOption
index-server -s st -l h:1 -e 1 -> 5 UnknownOption
demo -e 1 1 1 -> 1 UnknownOption
extract -s -- -q o -> 3 UnknownOption
cache -s st a -> 4 MissingOption
verify -s http://h/ -> 2 NeedsFolder
verify -s https://h/ -> 2 BadLocation
verify -s st x -> 3 Operands
make -s http://h/? a b -> 2 BadLocation
make -s http://h/?q a b -> 2 BadLocation
make -s http://u@h/ a b -> 2 BadLocation
make -s http://h/#f a b -> 2 BadLocation
make -s http://h:x/ a b -> 2 BadLocation
chunk-server -s st -> 3 MissingOption
chunk-server -s st -l h:0 -> 4 BadListen
chunk-server -s st -l h:65536 -> 4 BadListen
chunk-server -s st -l h -> 4 BadListen
make --digest md5 -s st a b -> 2 BadDigest
make --digest '' -s st a b -> 2 BadDigest
make -s st --digest SHA256 a b -> 4 BadDigest
make --digest sha256 --digest sha256 -s st a b -> 3 TooMany
make -s st a b --digest -> 6 NoValue
verify -s st --digest sha512 -> 4 BadDigest
chunk-server -s st -l h:1 --digest sha512/256 -> 6 BadDigest
demo --digest sha-256 1 1 -> 2 BadDigest
extract --digest sha256 -s st i o -> 1 UnknownOption
verify-index --digest sha256 i o -> 1 UnknownOption
chop -s st --digest sha256 i o -> 3 UnknownOption
cache -s st -c c --digest sha256 i -> 5 UnknownOption
list-chunks --digest sha256 i -> 1 UnknownOption
info --digest sha256 i -> 1 UnknownOption
prune -s st -y --digest sha256 i -> 4 UnknownOption
demo 1 536870913 -> 2 BadNumber
demo 18446744073709551616 1 -> 1 BadNumber
demo '' 1 -> 1 Empty
demo 1 1 '' -> 3 Operands
demo 1 1 1 -> 3 Operands
info -- -s x -> 3 Operands
info -> 1 Operands
cat -s st -o 18446744073709551616 i -> 4 BadNumber
cat -s st -l 18446744073709551616 i -> 4 BadNumber
cat -s st -l -1 i -> 4 BadNumber
cat -s st --length '' i -> 4 BadNumber
cat -s st -o 07 i -> 4 BadNumber
cat -s st -o 1 --offset 2 i -> 5 TooMany
cat -s st -l 1 --length 2 i -> 5 TooMany
cat -s st --listen h:1 i -> 3 UnknownOption
cat -s st -w i -> 3 UnknownOption
cat -l 4 i -> 4 MissingOption
cat -s st -> 3 Operands
cat -s st i i -> 4 Operands
chunk-server -s st --length 1 -> 3 UnknownOption
chunk-server -s st -l 7 -> 4 BadListen
index-server -s http://h/ -l h:1 -> 2 NeedsFolder
index-server -s st -l h:0 -> 4 BadListen
index-server -s st -> 3 MissingOption
index-server -l h:1 -> 3 MissingOption
index-server -s st -l h:1 -w -w -> 6 TooMany
index-server -s st -l h:1 -n 2 -> 5 UnknownOption
index-server -s st -l h:1 i -> 5 Operands
make -s st http://h/a.caibx b -> 3 BadLocation
make -s st a:// b -> 3 BadLocation
extract -s st --seed http://h/a.caibx i o -> 4 BadSeed
extract -s st http://h/ o -> 3 BadLocation
cat -s st http://h -> 3 BadLocation
verify-index http://h/a.caibx?q o -> 1 BadLocation
chop -s st http://h/a.caibx#f o -> 3 BadLocation
list-chunks https://h/a.caibx -> 1 BadLocation
info http://u@h/a.caibx -> 1 BadLocation
cache -s st -c c a http://u:p@h/a.caibx -> 6 BadLocation
prune -s st -y a b :// -> 6 BadLocation
list-chunks a http://h/ -> 2 Operands
";

// How the words were refused, if they were.
fn refusal(alloc: Global, words: &[String]) -> Result<String, AllocError> {
    match read_words(alloc, words) {
        Err(WordsFault::Usage { place, why }) => format!(in alloc; "{place} {why:?}"),
        _ => String::from_str(alloc, "not refused"),
    }
}

pub(crate) fn is_refused(rt: &impl Abort, alloc: Global, line: &str) {
    let (words, told) = line.split_once("->").expect(rt, "no refusal is told");
    let refused = ok(rt, refusal(alloc, &words_of(rt, alloc, words)));
    same(rt, refused.as_str(), told.trim());
}

#[test]
fn words_are_refused_at_their_places(rt: HostRuntime) {
    for line in REFUSED.lines() {
        is_refused(&rt, rt.alloc(), line);
    }
}

// `extract` with this many stores and seeds.
fn many(rt: &impl Abort, alloc: Global, stores: usize, seeds: usize) -> Vec<String> {
    let mut words = words_of(rt, alloc, "extract");
    for _ in 0..stores {
        push(rt, &mut words, "-s");
        push(rt, &mut words, "st");
    }
    for _ in 0..seeds {
        push(rt, &mut words, "--seed");
        push(rt, &mut words, "a.caibx");
    }
    push(rt, &mut words, "i");
    push(rt, &mut words, "o");
    words
}

// So many stores and seeds are refused as this tells.
fn are_too_many(rt: &impl Abort, alloc: Global, stores: usize, seeds: usize, told: &str) {
    let refused = ok(rt, refusal(alloc, &many(rt, alloc, stores, seeds)));
    same(rt, refused.as_str(), told);
}

#[test]
fn sixteen_stores_and_sixty_four_seeds_are_the_most(rt: HostRuntime) {
    let alloc = rt.alloc();
    are_too_many(&rt, alloc, 17, 0, "33 TooMany");
    are_too_many(&rt, alloc, 1, 65, "131 TooMany");
    match read_words(alloc, &many(&rt, alloc, 16, 64)) {
        Ok(Command::Extract { stores, seeds, .. }) => {
            same(&rt, stores.as_slice().len(), 16);
            same(&rt, seeds.as_slice().len(), 64);
        }
        _ => rt.panic("refused"),
    }
}

// The sizes and the number of workers of `make`, and its two names.
fn make_has(
    rt: &impl Abort,
    alloc: Global,
    line: &str,
    wanted: ([u64; 3], u32),
    index_name: &str,
    image_name: &str,
) {
    match read_words(alloc, &words_of(rt, alloc, line)) {
        Ok(
            Command::Make {
                sizes,
                workers,
                index,
                image,
                ..
            },
        ) => {
            same(rt, (sizes, workers), wanted);
            same(rt, index.as_str(), index_name);
            same(rt, image.as_str(), image_name);
        }
        _ => rt.panic("refused"),
    }
}

#[test]
#[rattlefmt::skip]
fn words_of_make_are_read(rt: HostRuntime) {
    let alloc = rt.alloc();
    let usual = [16384, 65536, 262144];
    make_has(&rt, alloc, "make -s st -m 16:64:256 i o", (usual, 10), "i", "o");
    make_has(&rt, alloc, "make i o -s st -n 32", (usual, 32), "i", "o");
    make_has(&rt, alloc, "make -s -k -- -n --", (usual, 10), "-n", "--");
}

// It is the folder "/srv/a".
pub(crate) fn is_the_folder(rt: &impl Abort, store: &Location) {
    match store {
        Location::Folder(folder) => same(rt, folder.as_str(), "/srv/a"),
        Location::Http { .. } => rt.panic("a server"),
    }
}

// It is the server at this port of "localhost".
pub(crate) fn is_a_server(rt: &impl Abort, store: &Location, at: u16) {
    match store {
        Location::Folder(_) => rt.panic("a folder"),
        Location::Http { host, port, prefix } => {
            same(rt, host.as_str(), "localhost");
            same(rt, *port, at);
            same(rt, prefix.as_str(), "");
        }
    }
}

// The store of this number in the group of this number.
pub(crate) fn store_in<'g>(
    rt: &impl Abort,
    groups: &'g Groups,
    group: usize,
    store: usize,
) -> &'g Location {
    let group = groups.as_slice().get(group).expect(rt, "a group");
    group.as_slice().get(store).expect(rt, "a store")
}

// There are this many stores in each group.
pub(crate) fn have_sizes(rt: &impl Abort, groups: &Groups, sizes: &[usize]) {
    same(rt, groups.as_slice().len(), sizes.len());
    for (group, size) in groups.as_slice().iter().zip(sizes) {
        same(rt, group.as_slice().len(), *size);
    }
}

fn is_one_name(rt: &impl Abort, names: &[Name], name: &str) {
    match names {
        [one] => same(rt, one.as_str(), name),
        _ => rt.panic("other names"),
    }
}

#[test]
#[rattlefmt::skip]
fn words_of_extract_are_read(rt: HostRuntime) {
    let line = "extract -s /srv/a -s http://localhost:8080/ -c /var/cache/d \
        --seed old.img.caibx -n 4 new.img.caibx new.img";
    match read_words(rt.alloc(), &words_of(&rt, rt.alloc(), line)) {
        Ok(Command::Extract { stores, retries, seeds, cache, in_place, workers, index, target }) => {
            have_sizes(&rt, &stores, &[1, 1]);
            is_the_folder(&rt, store_in(&rt, &stores, 0, 0));
            is_a_server(&rt, store_in(&rt, &stores, 1, 0), 8080);
            same(&rt, retries, 0);
            is_one_name(&rt, seeds.as_slice(), "old.img.caibx");
            same(&rt, cache.expect(&rt, "a cache").as_str(), "/var/cache/d");
            same(&rt, in_place, false);
            same(&rt, workers, 4);
            same(&rt, index.as_str(), "new.img.caibx");
            same(&rt, target.as_str(), "new.img");
        }
        _ => rt.panic("refused"),
    }
}

#[test]
#[rattlefmt::skip]
fn groups_of_stores_are_read(rt: HostRuntime) {
    let line = "cache -s http://localhost:8080/|/srv/a|http://localhost/ -c near -s x --error-retry 16 a.caibx";
    match read_words(rt.alloc(), &words_of(&rt, rt.alloc(), line)) {
        Ok(Command::Cache { stores, retries, cache, indexes, .. }) => {
            have_sizes(&rt, &stores, &[3, 1]);
            is_a_server(&rt, store_in(&rt, &stores, 0, 0), 8080);
            is_the_folder(&rt, store_in(&rt, &stores, 0, 1));
            is_a_server(&rt, store_in(&rt, &stores, 0, 2), 80);
            same(&rt, retries, 16);
            same(&rt, cache.as_str(), "near");
            is_one_name(&rt, indexes.as_slice(), "a.caibx");
        }
        _ => rt.panic("refused"),
    }
}

// `info` with these stores.
fn info_has(rt: &impl Abort, alloc: Global, line: &str, sizes: &[usize], times: u32) {
    match read_words(alloc, &words_of(rt, alloc, line)) {
        Ok(
            Command::Info {
                stores,
                retries,
                ..
            },
        ) => {
            have_sizes(rt, &stores, sizes);
            same(rt, retries, times);
        }
        _ => rt.panic("refused"),
    }
}

#[test]
fn sixteen_stores_in_groups_are_the_most(rt: HostRuntime) {
    let alloc = rt.alloc();
    info_has(&rt, alloc, "info i", &[], 0);
    info_has(&rt, alloc, "info -e 2 i", &[], 2);
    info_has(&rt, alloc, "info -s a|b -e 0 -s c i", &[2, 1], 0);
    info_has(
        &rt,
        alloc,
        "info -s a|b|c|d|e|f|g|h|i|j|k|l|m|n|o|p i",
        &[16],
        0,
    );
    info_has(
        &rt,
        alloc,
        "info -s a|b|c|d|e|f|g -s a -s a|b|c|d|e|f|g|h i",
        &[7, 1, 8],
        0,
    );
}

#[test]
fn words_of_verify_are_read(rt: HostRuntime) {
    let words = words_of(&rt, rt.alloc(), "verify -s st -r -n 3");
    match read_words(rt.alloc(), &words) {
        Ok(
            Command::Verify {
                store,
                repair,
                workers,
                digest,
            },
        ) => {
            same(&rt, store.as_str(), "st");
            same(&rt, repair, true);
            same(&rt, workers, 3);
            same(&rt, digest, DigestKind::Sha512T256);
        }
        _ => rt.panic("refused"),
    }
}

// The words are `cat` from this store, with this range and index.
fn cat_has(
    rt: &impl Abort,
    alloc: Global,
    line: &str,
    range: (u64, Option<u64>),
    index_name: &str,
) {
    match read_words(alloc, &words_of(rt, alloc, line)) {
        Ok(
            Command::Cat {
                stores,
                retries,
                offset,
                length,
                index,
            },
        ) => {
            have_sizes(rt, &stores, &[1]);
            same(rt, retries, 0);
            same(rt, (offset, length), range);
            same(rt, index.as_str(), index_name);
        }
        _ => rt.panic("refused"),
    }
}

#[test]
#[rattlefmt::skip]
fn words_of_cat_are_read(rt: HostRuntime) {
    let alloc = rt.alloc();
    let most = 18446744073709551615;
    cat_has(&rt, alloc, "cat -s st j.caibx", (0, None), "j.caibx");
    cat_has(&rt, alloc, "cat -s st -o 2 -l 5 j.caibx", (2, Some(5)), "j.caibx");
    cat_has(&rt, alloc, "cat j --length 0 -s st", (0, Some(0)), "j");
    cat_has(&rt, alloc, "cat -s st -o 18446744073709551615 -l 18446744073709551615 -- -l", (most, Some(most)), "-l");
    cat_has(&rt, alloc, "cat -s st --offset 4 http://h/j.caibx", (4, None), "http://h/j.caibx");
}

// The words are `index-server` at this address.
fn index_server_has(rt: &impl Abort, alloc: Global, line: &str, at: (u16, bool), host_name: &str) {
    match read_words(alloc, &words_of(rt, alloc, line)) {
        Ok(
            Command::IndexServer {
                store,
                host,
                port,
                writable,
            },
        ) => {
            same(rt, store.as_str(), "st");
            same(rt, host.as_str(), host_name);
            same(rt, (port, writable), at);
        }
        _ => rt.panic("refused"),
    }
}

#[test]
#[rattlefmt::skip]
fn words_of_index_server_are_read(rt: HostRuntime) {
    let alloc = rt.alloc();
    index_server_has(&rt, alloc, "index-server -s st -l localhost:8081", (8081, false), "localhost");
    index_server_has(&rt, alloc, "index-server -w --listen :1 -s st", (1, true), "");
}

// The kind of digest that words state, if their command takes one.
fn digest_stated(words: &Result<Command, WordsFault>) -> Option<DigestKind> {
    match words {
        Ok(Command::Make { digest, .. }) => Some(*digest),
        Ok(Command::Verify { digest, .. }) => Some(*digest),
        Ok(Command::ChunkServer { digest, .. }) => Some(*digest),
        Ok(Command::Demo { digest, .. }) => Some(*digest),
        _ => None,
    }
}

fn states(rt: &impl Abort, alloc: Global, line: &str, kind: DigestKind) {
    let read = read_words(alloc, &words_of(rt, alloc, line));
    same(rt, digest_stated(&read), Some(kind));
}

#[test]
#[rattlefmt::skip]
fn four_commands_state_a_kind_of_digest(rt: HostRuntime) {
    let alloc = rt.alloc();
    states(&rt, alloc, "make -s st i o", DigestKind::Sha512T256);
    states(&rt, alloc, "make -s st --digest sha512-256 i o", DigestKind::Sha512T256);
    states(&rt, alloc, "make -s st i o --digest sha256", DigestKind::Sha256);
    states(&rt, alloc, "verify --digest sha256 -s st", DigestKind::Sha256);
    states(&rt, alloc, "chunk-server -s st -l h:1", DigestKind::Sha512T256);
    states(&rt, alloc, "chunk-server -s st -l h:1 --digest sha256", DigestKind::Sha256);
    states(&rt, alloc, "demo 1 1", DigestKind::Sha512T256);
    states(&rt, alloc, "demo --digest sha256 1 1", DigestKind::Sha256);
}
