//! Updates of a tree.
ghost use Rattle.std.specs.Prelude.{◌≡◌, ◌++◌, length, OnOk, OnErr, IfOk};
ghost use Rattle.iot_text.specs.Texts.{AppendsPart};
ghost use Rattle.iot_codec.specs.Outcomes.{IsOutcome, DecodesWhatIsSpelled};
ghost use Rattle.iot_codec.specs.Places.{IsSpelledAt, IsAlone};
ghost use Rattle.iot_views.specs.Decoding.{update_at, optional_update_at};
ghost use Rattle.iot_views.specs.Rules.{IsUpdate, IsOptionalUpdate};
ghost use Rattle.iot_codec.specs.Spelling.{update_spelling, optional_update_spelling};
ghost use Rattle.iot_codec.specs.Laws.Updates.{update_laws, optional_update_laws};

use crate::CodecFault;
use crate::parts::malformed;
use crate::paths::read_path_on;
use crate::spelled::{Spelled, read};
use iot_text::{NoMemory, Path, Text};
use iot_tree::{Blob, Mode, Update};
use iot_views::tag_at;
use std::alloc::Global;

impl Spelled for Update {
    ghost has_spelling = { IsUpdate };

    ghost spelling = { update_spelling };

    ghost decoding = { update_at };

    #[tactic(auto, unfolding(crate::specs::Spelling::update_spelling))]
    fn put(&self, out: &mut Text) -> Result<(), NoMemory> {
        match self {
            Update::Put(path, contents) => {
                out.push(1)?;
                path.put(out)?;
                contents.put(out)
            }
            Update::MakeDir(path) => {
                out.push(2)?;
                path.put(out)
            }
            Update::Remove(path) => {
                out.push(3)?;
                path.put(out)
            }
            Update::Move(path, other) => {
                out.push(4)?;
                path.put(out)?;
                other.put(out)
            }
            Update::SetMode(path, mode) => {
                out.push(5)?;
                path.put(out)?;
                mode.put(out)
            }
        }
    }

    fn read(alloc: Global, bytes: &[u8], at: usize) -> Result<(Update, usize), CodecFault> {
        read_update_on(alloc, None, bytes, at)
    }

    ghost laws = { update_laws };
}

impl Spelled for Option<Update> {
    ghost has_spelling = { IsOptionalUpdate };

    ghost spelling = { optional_update_spelling };

    ghost decoding = { optional_update_at };

    #[tactic(auto, unfolding(crate::specs::Spelling::optional_update_spelling))]
    fn put(&self, out: &mut Text) -> Result<(), NoMemory> {
        match self {
            None => out.push(0),
            Some(update) => update.put(out),
        }
    }

    fn read(alloc: Global, bytes: &[u8], at: usize) -> Result<(Option<Update>, usize), CodecFault> {
        read_optional_update_on(alloc, None, bytes, at)
    }

    ghost laws = { optional_update_laws };
}

/// Reads an update, whose first path shares the names of the one that is given, if it is equal to that.
#[tactic(auto, unfolding(iot_views::specs::Decoding::update_at))]
fn read_update_on(
    alloc: Global,
    known: Option<&Path>,
    bytes: &[u8],
    at: usize,
) -> Result<(Update, usize), CodecFault>
    ensures { IsOutcome result (update_at bytes.now at) }
{
    match tag_at(bytes, at) {
        Some(1) => {
            let (path, after) = read_path_on(alloc, known, bytes, at + 1)?;
            let (contents, end) = Blob::read(alloc, bytes, after)?;
            Ok((Update::Put(path, contents), end))
        }
        Some(2) => {
            let (path, end) = read_path_on(alloc, known, bytes, at + 1)?;
            Ok((Update::MakeDir(path), end))
        }
        Some(3) => {
            let (path, end) = read_path_on(alloc, known, bytes, at + 1)?;
            Ok((Update::Remove(path), end))
        }
        Some(4) => {
            let (path, after) = read_path_on(alloc, known, bytes, at + 1)?;
            let (other, end) = Path::read(alloc, bytes, after)?;
            Ok((Update::Move(path, other), end))
        }
        Some(5) => {
            let (path, after) = read_path_on(alloc, known, bytes, at + 1)?;
            let (mode, end) = Mode::read(alloc, bytes, after)?;
            Ok((Update::SetMode(path, mode), end))
        }
        _ => Err(malformed(at)),
    }
}

/// Reads an update or none, as [`read_update_on`] does.
#[tactic(auto, unfolding(iot_views::specs::Decoding::optional_update_at))]
pub(crate) fn read_optional_update_on(
    alloc: Global,
    known: Option<&Path>,
    bytes: &[u8],
    at: usize,
) -> Result<(Option<Update>, usize), CodecFault>
    ensures { IsOutcome result (optional_update_at bytes.now at) }
{
    if let Some(0) = tag_at(bytes, at) {
        return Ok((None, at + 1));
    }
    let (update, end) = read_update_on(alloc, known, bytes, at)?;
    Ok((Some(update), end))
}

/// Appends the spelling of the update: its tag, and then what it holds.
pub fn put_update(value: &Update, out: &mut Text) -> Result<(), NoMemory>
    requires { IsUpdate value.now }
    ensures ok { OnOk result (out.new ≡ out.old ++ update_spelling value.now) }
    ensures err { OnErr result (AppendsPart out.old out.new (update_spelling value.now)) }
{
    value.put(out)
}

/// Reads the update that is spelled at the offset, and gives the offset after it.
///
/// # Errors
///
/// `Malformed` exactly if no update is spelled there. `NoMemory` if there is none for it.
pub fn read_update(alloc: Global, bytes: &[u8], at: usize) -> Result<(Update, usize), CodecFault>
    ensures found { IfOk result (IsSpelledAt IsUpdate update_spelling bytes.now at) }
    ensures only { DecodesWhatIsSpelled IsUpdate update_spelling bytes.now at result }
    ensures one { IsAlone IsUpdate update_spelling bytes.now at }
    ensures exact { IsOutcome result (update_at bytes.now at) }
{
    read(alloc, bytes, at)
}

/// Appends the spelling of the update, or a 0 if there is none.
pub fn put_optional_update(value: &Option<Update>, out: &mut Text) -> Result<(), NoMemory>
    requires { IsOptionalUpdate value.now }
    ensures ok { OnOk result (out.new ≡ out.old ++ optional_update_spelling value.now) }
    ensures err { OnErr result (AppendsPart out.old out.new (optional_update_spelling value.now)) }
{
    value.put(out)
}

/// Reads the update, or none, that is spelled at the offset, and gives the offset after it.
///
/// # Errors
///
/// `Malformed` exactly if no update, or none, is spelled there. `NoMemory` if there is none for it.
pub fn read_optional_update(
    alloc: Global,
    bytes: &[u8],
    at: usize,
) -> Result<(Option<Update>, usize), CodecFault>
    ensures found { IfOk result (IsSpelledAt IsOptionalUpdate optional_update_spelling bytes.now at) }
    ensures only { DecodesWhatIsSpelled IsOptionalUpdate optional_update_spelling bytes.now at result }
    ensures one { IsAlone IsOptionalUpdate optional_update_spelling bytes.now at }
    ensures exact { IsOutcome result (optional_update_at bytes.now at) }
{
    read(alloc, bytes, at)
}
