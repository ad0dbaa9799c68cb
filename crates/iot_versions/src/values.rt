//! Which values version 1 has a spelling for: those without a mode, and with few contents.
ghost use Rattle.std.specs.Prelude.{◌≡◌};
ghost use Rattle.std.specs.List.{list_all};
ghost use Rattle.iot_versions.specs.Values.{is_off, is_old_contents, is_old_file, is_old_node, is_old_row, is_old_question};
ghost use Rattle.iot_versions.specs.Values.{is_old_answer, is_old_read, is_old_update, is_old_access, is_old_label};

use iot_text::Path;
use iot_tree::{Access, Answer, Blob, Label, Mode, Node, Question, Read, Update};

/// The most bytes that contents have in version 1.
pub(crate) const OLD_CONTENTS: usize = 8_192;

/// Whether contents are few enough.
fn is_old_contents(contents: &Blob) -> bool
    ensures { result ≡ is_old_contents contents.now }
{
    contents.len() <= OLD_CONTENTS
}

fn is_off(mode: Mode) -> bool
    ensures { result ≡ is_off mode }
{
    match mode {
        Mode::Off => true,
        Mode::On => false,
    }
}

fn is_old_node(node: &Node) -> bool
    ensures { result ≡ is_old_node node.now }
{
    match node {
        Node::Dir | Node::FarDir => true,
        Node::File(contents, mode) => is_off(*mode) && is_old_contents(contents),
        Node::FarFile(mode) => is_off(*mode),
    }
}

/// Whether each row has a spelling.
pub(crate) fn are_old_rows(rows: &[(Path, Node)]) -> bool
    ensures { result ≡ list_all is_old_row rows.now }
{
    rows.iter().all(|row| is_old_node(&row.1))
}

fn is_old_question(question: &Question) -> bool
    ensures { result ≡ is_old_question question.now }
{
    match question {
        Question::Kind(_) | Question::Content(_) | Question::Names(_) => true,
        Question::Mode(_) => false,
    }
}

fn is_old_answer(answer: &Answer) -> bool
    ensures { result ≡ is_old_answer answer.now }
{
    match answer {
        Answer::Bytes(contents) => is_old_contents(contents),
        Answer::On | Answer::Off => false,
        Answer::Away | Answer::Absent | Answer::IsDir | Answer::IsFile | Answer::Names(_) => true,
    }
}

fn is_old_read(read: &Read) -> bool
    ensures { result ≡ is_old_read read.now }
{
    is_old_question(&read.question) && is_old_answer(&read.answer)
}

fn are_old_reads(reads: &[Read]) -> bool
    ensures { result ≡ list_all is_old_read reads.now }
{
    reads.iter().all(|read| is_old_read(read))
}

fn is_old_update(update: &Update) -> bool
    ensures { result ≡ is_old_update update.now }
{
    match update {
        Update::Put(_, contents) => is_old_contents(contents),
        Update::MakeDir(_) | Update::Remove(_) | Update::Move(_, _) => true,
        Update::SetMode(_, _) => false,
    }
}

fn are_old_updates(updates: &[Update]) -> bool
    ensures { result ≡ list_all is_old_update updates.now }
{
    updates.iter().all(|update| is_old_update(update))
}

/// Whether the access has a spelling.
pub(crate) fn is_old_access(access: &Access) -> bool
    ensures { result ≡ is_old_access access.now }
{
    are_old_reads(access.reads.as_slice()) && are_old_updates(access.updates.as_slice())
}

fn are_old_files(files: &[(Path, Blob)]) -> bool
    ensures { result ≡ list_all is_old_file files.now }
{
    files.iter().all(|file| is_old_contents(&file.1))
}

/// Whether the label has one.
pub(crate) fn is_old_label(label: &Label) -> bool
    ensures { result ≡ is_old_label label.now }
{
    are_old_files(label.kept.as_slice())
}

/// Whether each label has one.
pub(crate) fn are_old_labels(labels: &[Label]) -> bool
    ensures { result ≡ list_all is_old_label labels.now }
{
    labels.iter().all(|label| is_old_label(label))
}
