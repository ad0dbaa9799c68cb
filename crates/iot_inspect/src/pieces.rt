//! Parts of lines.
ghost use Rattle.std.specs.Prelude.{ℕ, List, ◌≡◌, [], ◌∷◌, ◌++◌, length, OnOk, OnErr, decimal};
ghost use Rattle.iot_text.specs.Texts.{AppendsPart};
ghost use Rattle.iot_inspect.specs.Texts.{transaction_name, question_text, or_empty};

use iot_text::{Name, NoMemory, Text};
use iot_tree::Question;

/// The name of a transaction: its client's name, a dot, and its number there.
pub(crate) fn put_transaction(client: &Name, number: u64, out: &mut Text) -> Result<(), NoMemory>
    ensures ok { OnOk result (out.new ≡ out.old ++ transaction_name client.now number) }
    ensures err { OnErr result (AppendsPart out.old out.new (transaction_name client.now number)) }
{
    out.append(client.as_bytes())?;
    out.push(b'.')?;
    out.append_number(number)
}

/// Which transaction a line is about, and its script, before more words.
pub(crate) fn put_subject(
    client: &Name,
    tid: u64,
    script: &Name,
    out: &mut Text,
) -> Result<(), NoMemory>
    ensures ok { OnOk result (out.new ≡ out.old ++ (transaction_name client.now tid ++ 32 ∷ script.now ++ 32 ∷ [])) }
    ensures err { OnErr result (AppendsPart out.old out.new (transaction_name client.now tid ++ 32 ∷ script.now ++ 32 ∷ [])) }
{
    put_transaction(client, tid, out)?;
    out.push(b' ')?;
    out.append(script.as_bytes())?;
    out.push(b' ')
}

/// The word of a line, a number, and a space.
pub(crate) fn put_numbered(word: &[u8], number: u64, out: &mut Text) -> Result<(), NoMemory>
    ensures ok { OnOk result (out.new ≡ out.old ++ (word.now ++ decimal number ++ 32 ∷ [])) }
    ensures err { OnErr result (AppendsPart out.old out.new (word.now ++ decimal number ++ 32 ∷ [])) }
{
    out.append(word)?;
    out.append_number(number)?;
    out.push(b' ')
}

/// A question: its kind, and its path.
pub fn put_question(question: &Question, out: &mut Text) -> Result<(), NoMemory>
    ensures ok { OnOk result (out.new ≡ out.old ++ question_text question.now) }
    ensures err { OnErr result (AppendsPart out.old out.new (question_text question.now)) }
{
    match question {
        Question::Kind(path) => {
            out.append(b"kind ")?;
            path.write_to(out)
        }
        Question::Content(path) => {
            out.append(b"content ")?;
            path.write_to(out)
        }
        Question::Names(path) => {
            out.append(b"names ")?;
            path.write_to(out)
        }
        Question::Mode(path) => {
            out.append(b"mode ")?;
            path.write_to(out)
        }
    }
}

/// Appends the line `empty` if the text is still as long as it was.
pub(crate) fn put_empty(before: usize, out: &mut Text) -> Result<(), NoMemory>
    ensures ok { (old added : List ℕ) → length old ≡ before → out.old ≡ old ++ added → OnOk result (out.new ≡ old ++ or_empty added) }
    ensures err { (old added : List ℕ) → length old ≡ before → out.old ≡ old ++ added
        → OnErr result (AppendsPart old out.new (or_empty added)) }
{
    if out.len() == before {
        return out.append(b"empty\n");
    }
    Ok(())
}
