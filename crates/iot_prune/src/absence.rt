//! Questions that a tree cannot answer.
ghost use Rattle.std.specs.Prelude.{◌≡◌};
ghost use Rattle.iot_tree.specs.Questions.{answer_of};
ghost use Rattle.iot_tree.specs.Snapshots.{is_away};

use iot_text::Path;
use iot_tree::{Kind, Node, Question, Tree};

/// Whether the answer to the question is `Away`. Does not allocate.
pub fn away(t: &Tree, q: &Question) -> bool
    ensures { result ≡ is_away (answer_of t.now q.now) }
{
    // That it is a tree is known of its rows.
    let _rows = t.rows();
    match q {
        Question::Kind(path) | Question::Mode(path) => is_below_far(t, path),
        Question::Content(path) => match t.node(path.names()) {
            Some(node) => matches!(node, Node::FarFile(_)),
            None => is_below_far(t, path),
        },
        Question::Names(path) => match t.node(path.names()) {
            Some(node) => matches!(node, Node::FarDir),
            None => is_below_far(t, path),
        },
    }
}

/// Whether the path has no row, and a far directory above it.
fn is_below_far(t: &Tree, path: &Path) -> bool
    ensures { result ≡ is_away (answer_of t.now (Question.Kind path.now)) }
{
    matches!(t.kind(path), Kind::Away)
}
