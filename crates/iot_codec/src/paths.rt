//! Paths.
ghost use Rattle.std.specs.Prelude.{◌≡◌, ◌≤◌, ◌+◌, ◌++◌, [], length, OnOk, OnErr, IfOk, IfSome, None, Ok};
ghost use Rattle.iot_text.specs.Names.{IsName};
ghost use Rattle.iot_text.specs.Paths.{IsPath};
ghost use Rattle.iot_text.specs.Texts.{AppendsPart};
ghost use Rattle.iot_codec.specs.Outcomes.{IsOutcome, DecodesWhatIsSpelled};
ghost use Rattle.iot_codec.specs.Places.{IsSpelledAt, IsAlone};
ghost use Rattle.iot_views.specs.Decoders.{items_at};
ghost use Rattle.iot_views.specs.Decoding.{name_at, path_at};
ghost use Rattle.iot_codec.specs.Spelling.{name_spelling, path_spelling};
ghost use Rattle.iot_codec.specs.Laws.Values.{path_laws};

use crate::CodecFault;
use crate::lists::{put_list, read_list};
use crate::names::after_name;
use crate::piece::Piece;
use crate::spelled::{Spelled, read};
use iot_text::{Name, NoMemory, Path, Text};
use iot_views::number_at;
use std::alloc::Global;

/// How many names a path has at most that is spelled in one piece: 8 bytes and then up to 40 for each name.
const FEW: usize = 3;

impl Spelled for Path {
    ghost has_spelling = { IsPath };

    ghost spelling = { path_spelling };

    ghost decoding = { path_at };

    fn put(&self, out: &mut Text) -> Result<(), NoMemory> {
        let names = self.names();
        if names.len() <= FEW {
            let mut piece = Piece::new();
            put_few(names, &mut piece);
            return out.append(piece.as_slice());
        }
        put_list(names, out)
    }

    fn read(alloc: Global, bytes: &[u8], at: usize) -> Result<(Path, usize), CodecFault> {
        read_new(alloc, bytes, at)
    }

    ghost laws = { path_laws };
}

/// Puts the spelling of a path of few names into the piece, which is empty.
fn put_few(names: &[Name], piece: &mut Piece)
    requires path { IsPath names.now }
    requires few { length names.now ≤ 3 }
    requires empty { piece.old ≡ [] }
    ensures { piece.new ≡ path_spelling names.now }
{
    piece.put(&(names.len() as u64).to_be_bytes());
    'names: for name in names {
        put_one(name, piece);
    }
}

/// Puts the spelling of a name after what is there.
fn put_one(name: &Name, piece: &mut Piece)
    requires { length piece.old ≤ 88 }
    ensures spelled { piece.new ≡ piece.old ++ name_spelling name.now }
    ensures room { length piece.new ≤ length piece.old + 40 }
{
    let text = name.as_bytes();
    piece.put(&(text.len() as u64).to_be_bytes());
    piece.put(text);
}

/// Reads a path, which shares the names of the one that is given, if it is equal to that.
pub(crate) fn read_path_on(
    alloc: Global,
    known: Option<&Path>,
    bytes: &[u8],
    at: usize,
) -> Result<(Path, usize), CodecFault>
    ensures { IsOutcome result (path_at bytes.now at) }
{
    if let Some(path) = known {
        if let Some(end) = after_path(path, bytes, at) {
            return Ok((path.copy(alloc)?, end));
        }
    }
    read_new(alloc, bytes, at)
}

/// The offset after the spelling of the path, if that is what lies at the offset.
#[tactic(auto, unfolding(iot_views::specs::Decoding::path_at))]
pub(crate) fn after_path(path: &Path, bytes: &[u8], at: usize) -> Option<usize>
    ensures { IfSome result (λ end. path_at bytes.now at ≡ Ok (path.now, end)) }
{
    let names = path.names();
    let Ok((count, after)) = number_at(bytes, at) else {
        return None;
    };
    if count != names.len() as u64 {
        return None;
    }
    after_names(names, bytes, after)
}

/// The offset after the spellings of the names, if that is what lies at the offset.
fn after_names(names: &[Name], bytes: &[u8], at: usize) -> Option<usize>
    ensures { IfSome result (λ end. items_at (λ _. name_at) (length names.now) None bytes.now at ≡ Ok (names.now, end)) }
{
    let mut end = at;
    'names: for name in names {
        end = after_name(name, bytes, end)?;
    }
    Some(end)
}

/// Reads a path into a block of its own. Up to three names are read without a list of them.
#[tactic(auto, unfolding(iot_views::specs::Decoding::path_at))]
pub(crate) fn read_new(alloc: Global, bytes: &[u8], at: usize) -> Result<(Path, usize), CodecFault>
    ensures { IsOutcome result (path_at bytes.now at) }
{
    let (count, after) = number_at(bytes, at)?;
    match count {
        1 => read_one(alloc, bytes, after),
        2 => read_two(alloc, bytes, after),
        3 => read_three(alloc, bytes, after),
        _ => read_any(alloc, bytes, at),
    }
}

/// Reads a path from the number of its names on.
#[tactic(auto, unfolding(iot_views::specs::Decoding::path_at))]
fn read_any(alloc: Global, bytes: &[u8], at: usize) -> Result<(Path, usize), CodecFault>
    ensures { IsOutcome result (path_at bytes.now at) }
{
    let (names, end) = read_list::<Name>(alloc, bytes, at)?;
    let path = Path::from_names(names.into_vec())?;
    Ok((path, end))
}

/// Reads a path of one name.
#[inline]
fn read_one(alloc: Global, bytes: &[u8], at: usize) -> Result<(Path, usize), CodecFault>
    ensures { IsOutcome result (items_at (λ _. name_at) 1 None bytes.now at) }
{
    let (first, end) = name_at(alloc, bytes, at)?;
    let path = Path::from_slice(alloc, &[first])?;
    Ok((path, end))
}

/// Reads a path of two names.
#[inline]
fn read_two(alloc: Global, bytes: &[u8], at: usize) -> Result<(Path, usize), CodecFault>
    ensures { IsOutcome result (items_at (λ _. name_at) 2 None bytes.now at) }
{
    let (first, at) = name_at(alloc, bytes, at)?;
    let (second, end) = name_at(alloc, bytes, at)?;
    let path = Path::from_slice(alloc, &[first, second])?;
    Ok((path, end))
}

/// Reads a path of three names.
#[inline]
fn read_three(alloc: Global, bytes: &[u8], at: usize) -> Result<(Path, usize), CodecFault>
    ensures { IsOutcome result (items_at (λ _. name_at) 3 None bytes.now at) }
{
    let (first, at) = name_at(alloc, bytes, at)?;
    let (second, at) = name_at(alloc, bytes, at)?;
    let (third, end) = name_at(alloc, bytes, at)?;
    let path = Path::from_slice(alloc, &[first, second, third])?;
    Ok((path, end))
}

/// Reads a name, and says that it is one.
#[inline]
fn name_at(alloc: Global, bytes: &[u8], at: usize) -> Result<(Name, usize), CodecFault>
    ensures exact { IsOutcome result (name_at bytes.now at) }
    ensures valid { IfOk result (λ read. IsName read.0) }
{
    let (name, end) = Name::read(alloc, bytes, at)?;
    // That it is a name is known of its bytes.
    let _valid = name.as_bytes();
    Ok((name, end))
}

/// Appends the spelling of the path: the number of its names, and then each name's spelling.
pub fn put_path(value: &Path, out: &mut Text) -> Result<(), NoMemory>
    ensures ok { OnOk result (out.new ≡ out.old ++ path_spelling value.now) }
    ensures err { OnErr result (AppendsPart out.old out.new (path_spelling value.now)) }
{
    value.put(out)
}

/// Reads the path that is spelled at the offset, and gives the offset after it.
///
/// # Errors
///
/// `Malformed` exactly if no path is spelled there. `NoMemory` if there is none for it.
pub fn read_path(alloc: Global, bytes: &[u8], at: usize) -> Result<(Path, usize), CodecFault>
    ensures found { IfOk result (IsSpelledAt IsPath path_spelling bytes.now at) }
    ensures only { DecodesWhatIsSpelled IsPath path_spelling bytes.now at result }
    ensures one { IsAlone IsPath path_spelling bytes.now at }
    ensures exact { IsOutcome result (path_at bytes.now at) }
{
    read(alloc, bytes, at)
}
