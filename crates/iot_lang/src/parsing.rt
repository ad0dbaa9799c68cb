//! Parsing scripts.
ghost use Rattle.std.specs.Prelude.{ℕ, ◌≡◌, ◌+◌, [], ◌∷◌, ◌++◌, List, Err, Ok, OnOk, IfOk, IfErr};
ghost use Rattle.iot_lang.specs.Code.{Code};
ghost use Rattle.iot_lines.specs.Lines.{lines};
ghost use Rattle.iot_lang.specs.Scripts.{Spell, Begin, BeginWithin, IsTooDeep, IsBadStatement, IsOpen};
ghost use Rattle.iot_lang.specs.Faults.{HasFault, UnlessMemory};
ghost use Rattle.iot_lang.specs.Nesting.{HasTaken};

use crate::faults::{LangFault, LineFault};
use crate::nesting::{DEPTH_LIMIT, Nesting};
use crate::scripts::Script;
use crate::statements::line;
use iot_lines::split_lines;
use std::alloc::Global;

/// Takes the next line of a script. After an `Err` do not use the lines so far.
fn take_line(nesting: &mut Nesting, alloc: Global, text: &[u8]) -> Result<(), LineFault>
    ensures ok { OnOk result ((texts : List (List ℕ)) → HasTaken nesting.old texts → HasTaken nesting.new (texts ++ text.now ∷ [])) }
    ensures bad { result ≡ Err LineFault.BadStatement
        → (texts : List (List ℕ)) → HasTaken nesting.old texts → BeginWithin (DEPTH_LIMIT + 1) (texts ++ text.now ∷ []) → ⊥ }
    ensures deep { result ≡ Err LineFault.TooDeep
        → (texts : List (List ℕ)) → HasTaken nesting.old texts
        → (Begin (texts ++ text.now ∷ []) → ⊥) × BeginWithin (DEPTH_LIMIT + 1) (texts ++ text.now ∷ []) }
{
    match line(alloc, text)? {
        None => Ok(()),
        Some(line) => nesting.take(alloc, line),
    }
}

/// Parses a script, one line after another.
fn parse_lines(alloc: Global, text: &[u8]) -> Result<Script, LangFault>
    ensures found { IfOk result (λ script. Spell (lines text.now) script) }
    ensures fault { IfErr result (λ fault. HasFault (lines text.now) fault) }
{
    let mut nesting = Nesting::new(alloc);
    let mut at: u64 = 0;
    'lines: for line in split_lines(text) {
        match take_line(&mut nesting, alloc, line) {
            Ok(()) => (),
            Err(fault) => return Err(fault.at(at)),
        }
        at += 1;
    }
    match nesting.finish() {
        Some(script) => Ok(script),
        None => Err(LangFault::BadStatement { line: at }),
    }
}

/// Parses a script: the text's lines are its pieces between newlines, and a newline at its very end
/// begins no further line.
///
/// # Errors
///
/// `BadStatement` and `TooDeep` name the first line such that the lines up to and with it begin no
/// script, counted from 0: `TooDeep` exactly if that line opens a 17th block. If there is no such
/// line and a block is still open after the last one, the fault is `BadStatement` with the number
/// of lines. `NoMemory` if memory runs out.
pub fn parse(alloc: Global, text: &[u8]) -> Result<Script, LangFault>
    // What is parsed is what the lines spell, and a fault is one that they have.
    ensures found { IfOk result (λ script. Spell (lines text.now) script) }
    ensures fault { IfErr result (λ fault. HasFault (lines text.now) fault) }

    // What the lines spell is parsed, and their fault is answered, unless memory runs out.
    ensures only { (script : Code) → Spell (lines text.now) script → UnlessMemory result (Ok script) }
    ensures bad { (line : ℕ) → IsBadStatement (lines text.now) line → UnlessMemory result (Err (LangFault.BadStatement line)) }
    ensures deep { (line : ℕ) → IsTooDeep (lines text.now) line → UnlessMemory result (Err (LangFault.TooDeep line)) }
    ensures open { (line : ℕ) → IsOpen (lines text.now) line → UnlessMemory result (Err (LangFault.BadStatement line)) }
{
    parse_lines(alloc, text)
}
