//! The files of a folder in memory by their names, which are relative, with `/` between components.

ghost use Rattle.std.specs.Prelude.{◌≡◌, ◌≢◌, ◌≤◌, ◌==◌, ℕ, List, None, Some, IfOk, OnOk, OnErr, is_some, map};
ghost use Rattle.std.specs.Prelude.{string_bytes};
ghost use Rattle.std.specs.BTreeMap.{keys, IsOrdered};
ghost use Rattle.std.specs.List.{filter};
ghost use Rattle.std.specs.String.{string_cmp};
ghost use Rattle.dsy_base.specs.Maps.{IsNamesOf, ReadGives, at_name, is_listed};
ghost use Rattle.dsy_forms.specs.Trees.{map_of};

use dsy_base::fault::{FileFault, IoFault};
use dsy_base::name::Name;
use std::alloc::{AllocError, Global};
use std::collections::BTreeMap;

/// Reads the whole of `b`, if it fits.
pub fn read_whole(b: &[u8], out: &mut [u8]) -> Result<usize, FileFault>
    ensures bytes { ReadGives (Some b.now) result out.new }
    ensures only { (result ≢ Err FileFault.Failed) × (result ≢ Err FileFault.Memory) }
{
    let n = b.len();
    if out.len() < n {
        return Err(FileFault::Longer);
    }
    let (front, _) = out.split_at_mut(n);
    front.copy_from_slice(b);
    Ok(n)
}

// Whether the name has at most one `/`.
fn is_shallow(name: &str) -> bool
    ensures { result ≡ is_listed name.now }
{
    name.as_bytes().iter().filter(|c| **c == b'/').count() <= 1
}

// The keys that a folder lists, in their order.
fn shallow_keys(alloc: Global, files: &BTreeMap<String, Vec<u8>>) -> Result<Vec<Name>, AllocError>
    ensures value { IfOk result
        (λ v. v.items ≡ filter is_listed (map string_bytes (keys files.now))) }
    ensures named { IsOrdered string_cmp files.now }
{
    let mut names = Vec::new(alloc);
    for key in files.keys() {
        let name = key.as_str();
        if is_shallow(name) {
            names.push(Name::of(alloc, name)?)?;
        }
    }
    Ok(names)
}

/// The names that a folder lists.
#[tactic(auto, using(crate::proofs::Trees::names_of_map))]
pub fn listed_names(
    alloc: Global,
    files: &BTreeMap<String, Vec<u8>>,
) -> Result<Vec<Name>, AllocError>
    ensures { IfOk result (λ v. IsNamesOf (map_of files.now) v.items) }
{
    let names = shallow_keys(alloc, files)?;
    Ok(names)
}

/// Puts `b` under the name.
#[tactic(auto, using(std::proofs::lemmas::Map::Text::text_keys))]
pub fn put_file(
    alloc: Global,
    files: &mut BTreeMap<String, Vec<u8>>,
    name: &str,
    b: &[u8],
) -> Result<(), IoFault>
    ensures ok { OnOk result ((q : List ℕ) → map_of files.new q
        ≡ at_name (map_of files.old) name.now (Some b.now) q) }
    ensures err { OnErr result ((q : List ℕ) → map_of files.new q ≡ map_of files.old q) }
    ensures only { result ≢ Err IoFault.Failed }
{
    let Ok(key) = String::from_str(alloc, name) else {
        return Err(IoFault::Memory);
    };
    let Ok(bytes) = Vec::from_slice(alloc, b) else {
        return Err(IoFault::Memory);
    };
    match files.insert(key, bytes) {
        Ok(_) => Ok(()),
        Err(_) => Err(IoFault::Memory),
    }
}

/// Removes what stands under the name, and answers whether there was anything.
#[tactic(auto, using(std::proofs::lemmas::Map::Text::text_keys))]
pub fn remove_file(files: &mut BTreeMap<String, Vec<u8>>, name: &str) -> bool
    ensures value { result ≡ is_some (map_of files.old name.now) }
    ensures changed { (q : List ℕ) → map_of files.new q ≡ at_name (map_of files.old) name.now None q }
{
    files.remove(name).is_some()
}

/// A copy of files.
#[tactic(auto, using(crate::proofs::Trees::map_of_clone))]
pub fn copied(files: &BTreeMap<String, Vec<u8>>) -> Result<BTreeMap<String, Vec<u8>>, AllocError>
    ensures { IfOk result (λ f. map_of f ≡ map_of files.now) }
{
    Ok(files.clone()?)
}
