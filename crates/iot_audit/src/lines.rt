//! What acts print.
ghost use Rattle.std.specs.Prelude.{◌≡◌};
ghost use Rattle.std.specs.Option.{option_copied};
ghost use Rattle.iot_access.specs.Access.{lines_of};
ghost use Rattle.iot_audit.specs.Audits.{are_same, agrees};

use iot_text::Text;
use iot_tree::{Act, Lines};

/// Whether the record of a commit, if there is one, says that these acts printed what they did.
pub(crate) fn agrees(recorded: Option<&Lines>, acts: &[Act]) -> bool
    ensures { result ≡ agrees (option_copied recorded.entry) (lines_of acts.now) }
{
    match recorded {
        Some(lines) => print(acts, lines.as_slice()),
        None => true,
    }
}

/// Whether these are the lines that the acts print in turn.
fn print(acts: &[Act], lines: &[Text]) -> bool
    ensures { result ≡ are_same lines.now (lines_of acts.now) }
{
    let mut rest = lines;
    'acts: for act in acts {
        match rest.strip_prefix(act.lines.as_slice()) {
            Some(after) => rest = after,
            None => return false,
        }
    }
    rest.is_empty()
}
