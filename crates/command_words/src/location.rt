//! Reading where chunks are, a folder's name or an `http` URL, and where an index is, a file's name
//! or an `http` URL.

ghost use Rattle.std.specs.Prelude.{◌≡◌, ◌<◌, ◌≤◌, ℕ, List, length, map, drop, codes, nat_eq, IfOk, None};
ghost use Rattle.std.specs.List.{starts_with};
ghost use Rattle.std.specs.Str.{bytes_eq};
ghost use Rattle.url.specs.Parser.{parse_url};
ghost use Rattle.command_words.specs.Locations.{contains_scheme, is_out_of_room, is_plain_http, without_last_slash};
ghost use Rattle.command_words.specs.Locations.{no_url, server_of, url_location, location_of, Locates, host_of};
ghost use Rattle.command_words.specs.Locations.{port_of, is_index_url, names_an_index, index_server_of, index_url};
ghost use Rattle.command_words.specs.Locations.{index_place_of, parts_of, names_folder};

use crate::command::Location;
use dsy_base::name::Name;
use std::alloc::{AllocError, Global};
use url::{ParseError, Url};

/// Why a word names no location, or no place of an index.
#[derive(Clone, Copy, Debug, PartialEq, Eq)]
pub enum NoLocation {
    /// It is a list of locations, or no URL that may be used.
    Bad,
    Memory,
}

/// Where an index is: a file, or an HTTP server and the path that is asked for, as it stands in a
/// request.
#[derive(Debug, Drop)]
pub enum IndexPlace {
    File(Name),
    Http { host: Name, port: u16, path: Name },
}

// Whether `://` stands in the word at this place.
fn has_scheme_at(word: &[u8], at: usize) -> bool
    requires { at ≤ length word.now }
    ensures { result ≡ starts_with nat_eq (drop at word.now) (codes "://") }
{
    let (_, rest) = word.split_at(at);
    rest.starts_with(b"://")
}

// Whether `://` stands in the word.
#[tactic(auto, using(crate::proofs::Schemes::scheme_after))]
fn has_scheme(word: &[u8]) -> bool
    ensures { result ≡ contains_scheme word.now }
{
    for i in 0..word.len() {
        if has_scheme_at(word, i) {
            return true;
        }
    }
    false
}

// Whether there was too little memory.
fn is_out_of_room(error: ParseError) -> bool
    ensures { result ≡ is_out_of_room error }
{
    matches!(error, ParseError::Overflow | ParseError::OutOfMemory)
}

fn is_http(url: &Url) -> bool
    ensures { result ≡ bytes_eq url.now.scheme (codes "http") }
{
    url.scheme() == "http"
}

// Whether it is an `http` URL with nothing but a host, a port and a path.
fn is_plain_http(url: &Url) -> bool
    ensures { result ≡ is_plain_http url.now }
{
    is_http(url)
        && url.username().is_empty()
        && url.password().is_none()
        && url.query().is_none()
        && url.fragment().is_none()
}

// The path of the URL, without a last `/`.
fn prefix_of(url: &Url) -> &str
    ensures { result.now ≡ without_last_slash url.now.path }
{
    let path = url.path();
    if path.as_bytes().ends_with(b"/") {
        &path[..path.len() - 1]
    } else {
        path
    }
}

// The host of the URL.
fn host_of(alloc: Global, url: &Url) -> Result<Name, AllocError>
    ensures { IfOk result (λ n. n ≡ host_of url.now) }
{
    Name::of(alloc, url.host_str().unwrap_or(""))
}

// The port of the URL.
fn port_of(url: &Url) -> u16
    ensures { result ≡ port_of url.now }
{
    url.port().unwrap_or(80)
}

// The server of the URL.
fn server_of(alloc: Global, url: &Url) -> Result<Location, AllocError>
    ensures { IfOk result (λ l. l ≡ server_of url.now) }
{
    let host = host_of(alloc, url)?;
    let prefix = Name::of(alloc, prefix_of(url))?;
    Ok(Location::Http {
        host,
        port: port_of(url),
        prefix,
    })
}

// Why no URL was read.
fn no_url(error: ParseError) -> NoLocation
    ensures { result ≡ no_url error }
{
    if is_out_of_room(error) {
        NoLocation::Memory
    } else {
        NoLocation::Bad
    }
}

// The location of a URL.
fn read_url(alloc: Global, word: &str) -> Result<Location, NoLocation>
    ensures { Locates (url_location (parse_url None word.now)) result }
{
    match Url::parse(alloc, word) {
        Ok(url) => {
            if !is_plain_http(&url) {
                return Err(NoLocation::Bad);
            }
            server_of(alloc, &url).map_err(|_| NoLocation::Memory)
        }
        Err(error) => Err(no_url(error)),
    }
}

/// The location that a word names. The empty word is judged before.
pub fn read_location(alloc: Global, word: &str) -> Result<Location, NoLocation>
    ensures { Locates (location_of word.now) result }
{
    let bytes = word.as_bytes();
    if bytes.contains(&b'|') {
        return Err(NoLocation::Bad);
    }
    if has_scheme(bytes) {
        return read_url(alloc, word);
    }
    let name = Name::of(alloc, word).map_err(|_| NoLocation::Memory)?;
    Ok(Location::Folder(name))
}

/// The words of a group of locations: what stands between the `|`.
pub fn parts(alloc: Global, word: &str) -> Result<Vec<&str>, AllocError>
    ensures { IfOk result (λ v. map (λ p. p.now) v.items ≡ parts_of word.now) }
{
    word.split('|').collect(alloc)
}

/// How many words the group has.
#[tactic(auto, using(crate::proofs::Parts::parts_counted))]
pub fn count_parts(word: &str) -> usize
    ensures { result ≡ length (parts_of word.now) }
{
    word.as_bytes().iter().filter(|b| **b == b'|').count() + 1
}

/// Whether the word names one folder: it is no group, and no URL.
pub fn names_folder(word: &str) -> bool
    ensures { result ≡ names_folder word.now }
{
    let bytes = word.as_bytes();
    !bytes.contains(&b'|') && !has_scheme(bytes)
}

/// Whether an index of this name is asked for over HTTP, and is no file.
pub fn is_index_url(word: &str) -> bool
    ensures { result ≡ is_index_url word.now }
{
    has_scheme(word.as_bytes())
}

// Whether it is an `http` URL with nothing but a host, a port and a path that names something.
fn names_an_index(url: &Url) -> bool
    ensures { result ≡ names_an_index url.now }
{
    is_plain_http(url) && url.path() != "/"
}

// The server of an index, and its path.
fn index_server_of(alloc: Global, url: &Url) -> Result<IndexPlace, AllocError>
    ensures { IfOk result (λ p. p ≡ index_server_of url.now) }
{
    let host = host_of(alloc, url)?;
    let path = Name::of(alloc, url.path())?;
    Ok(IndexPlace::Http {
        host,
        port: port_of(url),
        path,
    })
}

// The place of an index by its URL.
fn read_index_url(alloc: Global, word: &str) -> Result<IndexPlace, NoLocation>
    ensures { Locates (index_url (parse_url None word.now)) result }
{
    match Url::parse(alloc, word) {
        Ok(url) => {
            if !names_an_index(&url) {
                return Err(NoLocation::Bad);
            }
            index_server_of(alloc, &url).map_err(|_| NoLocation::Memory)
        }
        Err(error) => Err(no_url(error)),
    }
}

/// The place of the index that a word names. The empty word is judged before.
pub fn read_index_place(alloc: Global, word: &str) -> Result<IndexPlace, NoLocation>
    ensures { Locates (index_place_of word.now) result }
{
    if is_index_url(word) {
        return read_index_url(alloc, word);
    }
    let name = Name::of(alloc, word).map_err(|_| NoLocation::Memory)?;
    Ok(IndexPlace::File(name))
}
