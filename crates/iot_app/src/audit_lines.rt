//! The lines that an audit ends with.
ghost use Rattle.std.specs.Prelude.{◌≡◌, ◌++◌, IfOk, decimal};
ghost use Rattle.iot_audit.specs.declared.fault.AuditFault.TheVariants.{Foreign, Tree};
ghost use Rattle.iot_machine.specs.Texts.{line};
ghost use Rattle.iot_app.specs.Audits.{audit_line, audited_line};

use iot_audit::AuditFault;
use iot_text::{NoMemory, Path, Text};
use std::alloc::Global;

/// The line that says how many commits the image has, which is what the script makes.
pub(crate) fn audited_line(alloc: Global, number: u64) -> Result<Text, NoMemory>
    ensures { IfOk result (λ text. text ≡ audited_line number) }
{
    let mut text = Text::new(alloc);
    text.append(b"audit: ok ")?;
    text.append_number(number)?;
    text.append(b" commits\n")?;
    Ok(text)
}

/// The line that says why the image is refused.
pub(crate) fn audit_line(alloc: Global, fault: &AuditFault) -> Result<Text, NoMemory>
    ensures { IfOk result (λ text. text ≡ audit_line fault.now) }
{
    match fault {
        AuditFault::NoMemory => Ok(Text::new(alloc)),
        AuditFault::Foreign => foreign_line(alloc),
        AuditFault::Damaged { at } => numbered_line(alloc, b"audit: damaged at ", *at),
        AuditFault::NoScript { number } => numbered_line(alloc, b"audit: no script ", *number),
        AuditFault::Lines { number } => numbered_line(alloc, b"audit: lines ", *number),
        AuditFault::Tree { path } => tree_line(alloc, path),
    }
}

/// The line that says that something else wrote the image.
fn foreign_line(alloc: Global) -> Result<Text, NoMemory>
    ensures { IfOk result (λ text. text ≡ audit_line Foreign) }
{
    let mut text = Text::new(alloc);
    text.append(b"audit: foreign\n")?;
    Ok(text)
}

/// A line that ends with a number.
fn numbered_line(alloc: Global, what: &[u8], number: u64) -> Result<Text, NoMemory>
    ensures { IfOk result (λ text. text ≡ line (what.now ++ decimal number)) }
{
    let mut text = Text::new(alloc);
    text.append(what)?;
    text.append_number(number)?;
    text.push(b'\n')?;
    Ok(text)
}

/// The line that says where the trees differ.
fn tree_line(alloc: Global, path: &Path) -> Result<Text, NoMemory>
    ensures { IfOk result (λ text. text ≡ audit_line (Tree path.now)) }
{
    let mut text = Text::new(alloc);
    text.append(b"audit: tree ")?;
    path.write_to(&mut text)?;
    text.push(b'\n')?;
    Ok(text)
}
