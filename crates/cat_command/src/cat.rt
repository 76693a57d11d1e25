//! `cat -s STORE.. -e N -o OFFSET -l LENGTH INDEX`: a range of the image that INDEX lists is put on the output, without
//! assembling it. Offsets and lengths are in bytes.

ghost use Rattle.std.specs.Prelude.{◌-◌, ◌≤◌};
ghost use Rattle.caibx_codec.specs.Listing.{image_length};
ghost use Rattle.cat_command.specs.Cat.{CatEnds, PutFrom};
ghost use Rattle.command_groups.specs.Groups.{AreGroups};
ghost use Rattle.command_words.specs.Locations.{NamesIndex};
ghost use Rattle.command_worlds.specs.Worlds.{world};

use crate::putting::put_from;
use crate::range::Range;
use caibx_codec::index::Index;
use command_groups::groups::{close_groups, open_groups};
use command_groups::numbers::numbered;
use command_indexes::load::load_index;
use command_outcome::outcome::Outcome;
use command_words::command::Groups;
use dsy_base::dial::Dial;
use dsy_base::files::Files;
use dsy_base::name::Name;
use dsy_base::sink::Sink;
use std::alloc::Global;
use store_chain::chain::Chain;

/// The words of a `cat`.
#[derive(Drop)]
pub struct CatWords {
    pub stores: Groups,
    /// How often a call on a store that fails is made again.
    pub retries: u32,
    /// Where the range begins.
    pub offset: u64,
    /// Its length, where it doesn't go to the image's end.
    pub length: Option<u64>,
    pub index: Name,
}

// Groups of stores, and how often a call that fails is made again.
#[derive(Drop)]
struct Sources {
    groups: Groups,
    retries: u32,
}

// Opens the stores, puts the range, and gives the stores back.
fn put_stored<F: Files, D: Dial, O: Sink>(
    alloc: Global,
    files: &mut F,
    dial: &mut D,
    out: &mut O,
    sources: &Sources,
    index: Index,
    range: Range,
) -> Result<(), Outcome>
    requires groups { AreGroups sources.now.groups sources.now.retries }
    requires inside { range.size ≤ image_length index - range.at }
    ensures ends { PutFrom F.Look.never_fails sources.now.groups sources.now.retries index range.at range.size
        (world (F.disk files.old) (D.state dial.old) (O.output out.old)) result
        (world (F.disk files.new) (D.state dial.new) (O.output out.new)) }
{
    index.rules();
    let groups = sources.groups.as_slice();
    let opened = open_groups(alloc, files, dial, groups, sources.retries)?;
    let chain = Chain::with_kind(index.kind(), opened);
    let (chain, put) = put_from(alloc, index, chain, range, out);
    let asked = chain.into_stores();
    let answer = numbered(groups, put);
    close_groups(files, dial, asked);
    answer
}

/// Puts the bytes of the image from OFFSET on, LENGTH of them where it is given, up to the image's end. Where OFFSET is
/// at the end or past it nothing is put.
pub fn cat<F: Files, D: Dial, O: Sink>(
    alloc: Global,
    files: &mut F,
    dial: &mut D,
    out: &mut O,
    words: CatWords,
) -> Result<(), Outcome>
    requires stores { AreGroups words.stores words.retries }
    requires named { NamesIndex words.index }
    ensures ends { CatEnds F.Look.never_fails words.stores words.retries words.offset words.length words.index
        (world (F.disk files.old) (D.state dial.old) (O.output out.old)) result
        (world (F.disk files.new) (D.state dial.new) (O.output out.new)) }
{
    let CatWords {
        stores,
        retries,
        offset,
        length,
        index,
    } = words;
    let listed = load_index(alloc, files, dial, index)?;
    let range = Range::of(&listed, offset, length);
    let sources = Sources {
        groups: stores,
        retries,
    };
    put_stored(alloc, files, dial, out, &sources, listed, range)
}
