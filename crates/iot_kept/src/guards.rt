//! Whether the reads of an act guard its update: they say what it needs to fit.
ghost use Rattle.std.specs.Prelude.{◌≡◌, ◌↔◌, IsTrue};
ghost use Rattle.iot_acts.specs.Guards.{IsGuarded};
ghost use Rattle.iot_acts.specs.Paths.{parent_path, is_at_or_below};
ghost use Rattle.iot_kept.specs.Guarding.{is_kind, is_contents, has_no_names, is_no_names, is_mode, says, said, is_free};
ghost use Rattle.iot_kept.specs.Guarding.{guards_put, guards_remove, guards_move, may_move, guards};

use iot_text::{Name, Path};
use iot_tree::{Act, Answer, Question, Read, Update};

/// What a read can say of a path.
#[derive(Clone, Copy)]
pub(crate) enum Saying {
    /// Nothing is there.
    Absent,
    /// A directory is there.
    IsDir,
    /// A file is there.
    IsFile,
    /// A file is there with some contents.
    HasBytes,
    /// A directory with no name in it is there.
    IsEmpty,
    /// A file is there with some mode.
    HasMode,
}

/// Whether the reads of the act guard its update. Costs a pass over the reads for each thing that is to be said.
pub(crate) fn is_guarded(act: &Act) -> bool
    ensures { IsTrue result ↔ IsGuarded act.now }
{
    guards(act.reads.as_slice(), &act.update)
}

/// Whether the reads guard the update, if there is one.
fn guards(reads: &[Read], update: &Option<Update>) -> bool
    ensures { result ≡ guards reads.now update.now }
{
    match update {
        None => true,
        Some(Update::Put(path, _)) => guards_put(reads, path),
        Some(Update::MakeDir(path)) => is_free(reads, path),
        Some(Update::Remove(path)) => guards_remove(reads, path),
        Some(Update::Move(from, to)) => may_move(reads, from, to),
        Some(Update::SetMode(path, _)) => said(reads, path.names(), Saying::HasMode),
    }
}

/// Whether they say that a file is at the path, or what its contents are, or that the path is free.
fn guards_put(reads: &[Read], path: &Path) -> bool
    ensures { result ≡ guards_put reads.now path.now }
{
    said(reads, path.names(), Saying::IsFile)
        || said(reads, path.names(), Saying::HasBytes)
        || is_free(reads, path)
}

/// Whether they say that what is at the path, which is not the root, can go.
fn guards_remove(reads: &[Read], path: &Path) -> bool
    ensures { result ≡ guards_remove reads.now path.now }
{
    !path.names().is_empty()
        && (said(reads, path.names(), Saying::IsFile) || said(reads, path.names(), Saying::IsEmpty))
}

/// Whether neither path is the root, the second is not at or below the first, and the reads say that the first can be moved there.
fn may_move(reads: &[Read], from: &Path, to: &Path) -> bool
    ensures { result ≡ may_move reads.now from.now to.now }
{
    !from.names().is_empty()
        && !to.names().is_empty()
        && !is_at_or_below(to, from)
        && guards_move(reads, from, to)
}

/// Whether the path is the other, or lies below it.
fn is_at_or_below(path: &Path, other: &Path) -> bool
    ensures { result ≡ is_at_or_below path.now other.now }
{
    path.names() == other.names() || path.is_below(other)
}

/// Whether the reads say that what is at the first path can take the place of what is at the second.
fn guards_move(reads: &[Read], from: &Path, to: &Path) -> bool
    ensures { result ≡ guards_move reads.now from.now to.now }
{
    let from_file = said(reads, from.names(), Saying::IsFile);
    let from_dir = said(reads, from.names(), Saying::IsDir);
    (from_file && said(reads, to.names(), Saying::IsFile))
        || (from_dir && said(reads, to.names(), Saying::IsEmpty))
        || ((from_dir || from_file) && is_free(reads, to))
}

/// Whether they say that nothing is at the path, and that its parent is a directory.
fn is_free(reads: &[Read], path: &Path) -> bool
    ensures { result ≡ is_free reads.now path.now }
{
    said(reads, path.names(), Saying::Absent) && said(reads, parent_of(path), Saying::IsDir)
}

/// The names of the path's parent; the root is its own.
fn parent_of(path: &Path) -> &[Name]
    ensures { result.now ≡ parent_path path.now }
{
    match path.parent_names() {
        Some(names) => names,
        None => &[],
    }
}

/// Whether one of the reads says so of the path.
fn said(reads: &[Read], path: &[Name], saying: Saying) -> bool
    ensures { result ≡ said reads.now path.now saying }
{
    'reads: for read in reads {
        if says(read, path, saying) {
            return true;
        }
    }
    false
}

/// Whether the read says so of the path.
fn says(read: &Read, path: &[Name], saying: Saying) -> bool
    ensures { result ≡ says path.now saying read.now }
{
    match &read.question {
        Question::Kind(at) => at.names() == path && is_kind(saying, &read.answer),
        Question::Content(at) => at.names() == path && is_contents(saying, &read.answer),
        Question::Names(at) => at.names() == path && is_no_names(saying, &read.answer),
        Question::Mode(at) => at.names() == path && is_mode(saying, &read.answer),
    }
}

/// Whether the answer to the question for the kind says so.
fn is_kind(saying: Saying, answer: &Answer) -> bool
    ensures { result ≡ is_kind saying answer.now }
{
    match saying {
        Saying::Absent => matches!(answer, Answer::Absent),
        Saying::IsDir => matches!(answer, Answer::IsDir),
        Saying::IsFile => matches!(answer, Answer::IsFile),
        Saying::HasBytes => false,
        Saying::IsEmpty => false,
        Saying::HasMode => false,
    }
}

/// Whether the answer to the question for the contents says so.
fn is_contents(saying: Saying, answer: &Answer) -> bool
    ensures { result ≡ is_contents saying answer.now }
{
    match saying {
        Saying::HasBytes => matches!(answer, Answer::Bytes(_)),
        Saying::Absent => false,
        Saying::IsDir => false,
        Saying::IsFile => false,
        Saying::IsEmpty => false,
        Saying::HasMode => false,
    }
}

/// Whether the answer to the question for the names says so.
fn is_no_names(saying: Saying, answer: &Answer) -> bool
    ensures { result ≡ is_no_names saying answer.now }
{
    match saying {
        Saying::IsEmpty => has_no_names(answer),
        Saying::Absent => false,
        Saying::IsDir => false,
        Saying::IsFile => false,
        Saying::HasBytes => false,
        Saying::HasMode => false,
    }
}

/// Whether the answer to the question for the mode says so.
fn is_mode(saying: Saying, answer: &Answer) -> bool
    ensures { result ≡ is_mode saying answer.now }
{
    match saying {
        Saying::HasMode => matches!(answer, Answer::On | Answer::Off),
        Saying::Absent => false,
        Saying::IsDir => false,
        Saying::IsFile => false,
        Saying::HasBytes => false,
        Saying::IsEmpty => false,
    }
}

/// Whether the answer is that there are no names.
fn has_no_names(answer: &Answer) -> bool
    ensures { result ≡ has_no_names answer.now }
{
    match answer {
        Answer::Names(children) => children.is_empty(),
        Answer::Away => false,
        Answer::Absent => false,
        Answer::IsDir => false,
        Answer::IsFile => false,
        Answer::Bytes(_) => false,
        Answer::On => false,
        Answer::Off => false,
    }
}
