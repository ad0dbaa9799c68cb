//! Writing changes.
ghost use Rattle.std.specs.Prelude.{◌≡◌, ◌++◌, IfOk, Ok, OnOk};
ghost use Rattle.iot_changes.specs.Decoding.{change_at};
ghost use Rattle.iot_changes.specs.Rules.{IsChange};
ghost use Rattle.iot_changes.specs.Spelling.{change_spelling};
ghost use Rattle.iot_wire.specs.Messages.{whole};

use crate::Change;
use crate::resolutions::put_resolution;
use iot_codec::{put_access, put_act, put_name, put_number, put_option, put_tree};
use iot_text::{NoMemory, Text};
use std::alloc::Global;

/// How many bytes there is room for at first, which are enough for most changes.
const ROOM: usize = 512;

/// Appends the spelling of the change.
#[tactic(auto, unfolding(crate::specs::Spelling::change_spelling))]
pub fn put_change(change: &Change, out: &mut Text) -> Result<(), NoMemory>
    requires { IsChange change.now }
    ensures { OnOk result (out.new ≡ out.old ++ change_spelling change.now) }
{
    match change {
        Change::Held(tree) => {
            out.push(1)?;
            put_tree(tree, out)
        }
        Change::Begun {
            number,
            script,
            option,
        } => {
            out.push(2)?;
            put_number(number, out)?;
            put_name(script, out)?;
            put_option(option, out)
        }
        Change::Fetched { number, tree } => {
            out.push(3)?;
            put_number(number, out)?;
            put_tree(tree, out)
        }
        Change::Acted { number, act } => {
            out.push(4)?;
            put_number(number, out)?;
            put_act(act, out)
        }
        Change::Ended { number } => {
            out.push(5)?;
            put_number(number, out)
        }
        Change::Cut { number, acts } => {
            out.push(6)?;
            put_number(number, out)?;
            put_number(acts, out)
        }
        Change::Conflicted => out.push(7),
        Change::Resolved(resolution, access) => {
            out.push(8)?;
            put_resolution(resolution, out)?;
            put_access(access, out)
        }
        Change::Repaired(script) => {
            out.push(9)?;
            put_name(script, out)
        }
        Change::Left => out.push(10),
        Change::Again { number } => {
            out.push(11)?;
            put_number(number, out)
        }
    }
}

/// The bytes of the change: its tag, and then its parts. What is written is read back.
pub fn write_change(alloc: Global, change: &Change) -> Result<Vec<u8>, NoMemory>
    requires { IsChange change.now }
    ensures spelled { IfOk result (λ bytes. bytes.items ≡ change_spelling change.now) }
    ensures back { IfOk result (λ bytes. whole change_at bytes.items ≡ Ok change.now) }
{
    let mut out = Text::with_capacity(alloc, ROOM)?;
    put_change(change, &mut out)?;
    Ok(out.into_bytes())
}
