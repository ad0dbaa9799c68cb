//! Files and labels.
ghost use Rattle.std.specs.Prelude.{◌≡◌, option_map};
ghost use Rattle.iot_text.specs.Paths.{path_cmp};
ghost use Rattle.iot_views.specs.Outcomes.{IsLent};
ghost use Rattle.iot_views.specs.Decoding.{path_at, contents_at, pair_at, files_at, way_at, label_at};
ghost use Rattle.iot_views.specs.Rules.{rises};
ghost use Rattle.iot_views.specs.Listed.{counted_at, loose_pair_at};
ghost use Rattle.iot_views.specs.Loose.{path_again};
ghost use Rattle.iot_views.specs.Laws.{path_looser, contents_looser, pair_looser};
ghost use Rattle.iot_views.specs.Seen.{label_seen};

use crate::lists::{Lent, Views, lend_items};
use crate::names::{PathView, path_again, path_at};
use crate::parts::{
    Malformed, at_most, contents_at, counted_at, fault_at, name_at, number_at, tag_at,
};
use iot_text::Path;
use iot_tree::{ACT_LIMIT, Blob, Way};

/// Files with their contents, by their paths, which rise.
pub type FileViews<'a> = Views<(PathView<'a>, &'a [u8]), (Path, Blob)>;

/// Whether the path is greater than that of the file before it, if there is one.
fn rises(previous: &Option<(PathView<'_>, &[u8])>, path: &PathView<'_>) -> bool
    ensures { result ≡ rises path_cmp (option_map (λ file. (file.0, file.1.now)) previous.now) path.now }
{
    match previous {
        Some((before, _)) => before.cmp_path(path).is_lt(),
        None => true,
    }
}

impl<'a> Lent<(Path, Blob)> for (PathView<'a>, &'a [u8]) {
    type Source = &'a [u8];

    ghost source = { λ bytes. bytes.now };

    ghost seen = { λ file. (file.0, file.1.now) };

    ghost item = { pair_at path_cmp path_at contents_at };

    ghost again = { loose_pair_at path_again counted_at };

    ghost looser = { pair_looser path_cmp path_at path_again contents_at counted_at path_looser contents_looser };

    #[tactic(auto, unfolding(crate::specs::Decoding::pair_at))]
    fn lend(
        previous: &Option<(PathView<'a>, &'a [u8])>,
        bytes: &'a [u8],
        at: usize,
    ) -> Result<((PathView<'a>, &'a [u8]), usize), Malformed> {
        let (path, after) = path_at(bytes, at)?;
        if !rises(previous, &path) {
            return Err(fault_at(at));
        }
        let (contents, end) = contents_at(bytes, after)?;
        Ok(((path, contents), end))
    }

    fn lend_again(
        bytes: &'a [u8],
        at: usize,
    ) -> Result<((PathView<'a>, &'a [u8]), usize), Malformed> {
        let (path, at) = path_again(bytes, at)?;
        let (contents, end) = counted_at(bytes, at)?;
        Ok(((path, contents), end))
    }
}

/// Files.
#[tactic(auto, unfolding(crate::specs::Decoding::files_at))]
fn files_at(bytes: &[u8], at: usize) -> Result<(FileViews<'_>, usize), Malformed>
    ensures { IsLent (λ list. list) result (files_at bytes.now at) }
{
    let (count, at) = number_at(bytes, at)?;
    lend_items(count, bytes, at)
}

/// The way of a commit, and the offset after it.
#[tactic(auto, unfolding(crate::specs::Decoding::way_at))]
pub fn way_at(bytes: &[u8], at: usize) -> Result<(Way, usize), Malformed>
    ensures { IsLent (λ way. way) result (way_at bytes.now at) }
{
    match tag_at(bytes, at) {
        Some(1) => Ok((Way::Certified, at + 1)),
        Some(2) => Ok((Way::Reexecuted, at + 1)),
        Some(3) => Ok((Way::Resolved, at + 1)),
        _ => Err(fault_at(at)),
    }
}

/// A committed transaction.
#[derive(Drop)]
pub struct LabelView<'a> {
    pub client: u64,
    pub tid: u64,
    pub script: &'a [u8],
    pub budget: u64,
    pub way: Way,
    pub kept: FileViews<'a>,
}

impl<'a> LabelView<'a> {
    ghost use Rattle.std.specs.Prelude.{◌≡◌};
    ghost use Rattle.iot_views.specs.Seen.{label_seen};

    /// The same label once more.
    pub fn again(&self) -> LabelView<'a>
        ensures { label_seen result ≡ label_seen self.now }
    {
        LabelView {
            client: self.client,
            tid: self.tid,
            script: self.script,
            budget: self.budget,
            way: self.way,
            kept: self.kept.again(),
        }
    }
}

/// The greatest number of a client.
const LAST_CLIENT: u64 = 7;

/// The label that is spelled at the offset, and the offset after it.
///
/// # Errors
///
/// `Malformed` exactly if no label is spelled there.
#[tactic(auto, unfolding(crate::specs::Decoding::label_at))]
pub fn label_at(bytes: &[u8], at: usize) -> Result<(LabelView<'_>, usize), Malformed>
    ensures { IsLent label_seen result (label_at bytes.now at) }
{
    let (client, at) = at_most(LAST_CLIENT, bytes, at)?;
    let (tid, at) = number_at(bytes, at)?;
    let (script, at) = name_at(bytes, at)?;
    let (budget, at) = at_most(ACT_LIMIT, bytes, at)?;
    let (way, at) = way_at(bytes, at)?;
    let (kept, end) = files_at(bytes, at)?;
    let label = LabelView {
        client,
        tid,
        script,
        budget,
        way,
        kept,
    };
    Ok((label, end))
}
