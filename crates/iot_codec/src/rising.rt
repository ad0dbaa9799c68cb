//! Paths that rise.
ghost use Rattle.std.specs.Prelude.{◌≡◌, ◌++◌, length, OnOk, OnErr, IfOk, None};
ghost use Rattle.std.specs.Option.{option_copied};
ghost use Rattle.iot_text.specs.Paths.{path_cmp};
ghost use Rattle.iot_text.specs.Texts.{AppendsPart};
ghost use Rattle.iot_codec.specs.Outcomes.{IsOutcome, DecodesWhatIsSpelled};
ghost use Rattle.iot_codec.specs.Places.{IsSpelledAt, IsAlone};
ghost use Rattle.iot_views.specs.Decoders.{items_at};
ghost use Rattle.iot_views.specs.Decoding.{next_path_at, paths_at};
ghost use Rattle.iot_views.specs.Rules.{ArePaths, is_after};
ghost use Rattle.iot_codec.specs.Spelling.{paths_spelling};
ghost use Rattle.iot_codec.specs.Laws.Rising.{paths_laws};

use crate::CodecFault;
use crate::lists::put_list;
use crate::parts::{malformed, room_for};
use crate::spelled::{Spelled, read};
use iot_text::{NoMemory, Path, Text};
use iot_tree::Paths;
use iot_views::number_at;
use std::alloc::Global;

/// Whether the path is greater than the one before it, if there is one.
fn is_after(previous: Option<&Path>, path: &Path) -> bool
    ensures { result ≡ is_after path_cmp (option_copied previous.entry) path.now }
{
    match previous {
        Some(before) => before.cmp(path).is_lt(),
        None => true,
    }
}

/// Reads a path that follows another one, or is the first.
fn read_next(
    alloc: Global,
    previous: Option<&Path>,
    bytes: &[u8],
    at: usize,
) -> Result<(Path, usize), CodecFault>
    ensures { IsOutcome result (next_path_at (option_copied previous.entry) bytes.now at) }
{
    let (path, end) = Path::read(alloc, bytes, at)?;
    if !is_after(previous, &path) {
        return Err(malformed(at));
    }
    Ok((path, end))
}

/// Reads so many paths.
fn read_rising(
    alloc: Global,
    count: u64,
    bytes: &[u8],
    at: usize,
) -> Result<(Paths, usize), CodecFault>
    ensures { IsOutcome result (items_at next_path_at count None bytes.now at) }
{
    let mut paths = Vec::with_capacity(alloc, room_for(count, bytes, at))?;
    let mut end = at;
    'paths: for _ in 0..count {
        let (path, after) = read_next(alloc, paths.last(), bytes, end)?;
        paths.push(path)?;
        end = after;
    }
    Ok((Paths::from_vec(paths), end))
}

impl Spelled for Paths {
    ghost has_spelling = { ArePaths };

    ghost spelling = { paths_spelling };

    ghost decoding = { paths_at };

    fn put(&self, out: &mut Text) -> Result<(), NoMemory> {
        put_list(self.as_slice(), out)
    }

    #[tactic(auto, unfolding(iot_views::specs::Decoding::paths_at))]
    fn read(alloc: Global, bytes: &[u8], at: usize) -> Result<(Paths, usize), CodecFault> {
        let (count, at) = number_at(bytes, at)?;
        read_rising(alloc, count, bytes, at)
    }

    ghost laws = { paths_laws };
}

/// Appends the spelling of the paths: their number, and then each path's spelling.
pub fn put_paths(value: &Paths, out: &mut Text) -> Result<(), NoMemory>
    requires { ArePaths value.now }
    ensures ok { OnOk result (out.new ≡ out.old ++ paths_spelling value.now) }
    ensures err { OnErr result (AppendsPart out.old out.new (paths_spelling value.now)) }
{
    value.put(out)
}

/// Reads the rising paths that are spelled at the offset, and gives the offset after them.
///
/// # Errors
///
/// `Malformed` exactly if no rising paths are spelled there. `NoMemory` if there is none for them.
pub fn read_paths(alloc: Global, bytes: &[u8], at: usize) -> Result<(Paths, usize), CodecFault>
    ensures found { IfOk result (IsSpelledAt ArePaths paths_spelling bytes.now at) }
    ensures only { DecodesWhatIsSpelled ArePaths paths_spelling bytes.now at result }
    ensures one { IsAlone ArePaths paths_spelling bytes.now at }
    ensures exact { IsOutcome result (paths_at bytes.now at) }
{
    read(alloc, bytes, at)
}
