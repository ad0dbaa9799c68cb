//! The lines of a profile.
ghost use Rattle.std.specs.Prelude.{◌≡◌, ◌+◌, ◌<◌, ◌^◌, length, IfOk};
ghost use Rattle.iot_lines.specs.Words.{words};
ghost use Rattle.iot_event.specs.Profiles.{wish_with, wish_of, wish_after, after_line, profile_of};
ghost use Rattle.iot_event.specs.Results.{closed_of, AnswersWishes, LeavesWishes};

use crate::bytes::fits_line;
use crate::closing::Closed;
use crate::fault::EventFault;
use crate::form::path_of;
use crate::number::number_of;
use iot_lines::{is_skipped, split_lines, split_words};
use iot_text::NoMemory;
use iot_tree::{PRIORITY_LIMIT, Profile, Reach, WISH_LIMIT, Wish};
use std::alloc::Global;

/// A wish of this reach, if the priority is one and the path is.
fn wish_with(
    alloc: Global,
    priority: &[u8],
    path: &[u8],
    reach: Reach,
) -> Result<Option<Wish>, NoMemory>
    ensures { IfOk result (λ wish. wish ≡ wish_with priority.now path.now reach) }
{
    let Some(priority) = number_of(priority, PRIORITY_LIMIT) else {
        return Ok(None);
    };
    match path_of(alloc, path)? {
        Some(path) => Ok(Some(Wish {
            priority,
            path,
            reach,
        })),
        None => Ok(None),
    }
}

/// The wish that a line is, if it is one.
fn wish_of_line(alloc: Global, line: &[u8]) -> Result<Option<Wish>, NoMemory>
    ensures { IfOk result (λ wish. wish ≡ wish_of (words line.now)) }
{
    let mut words = split_words(line);
    let Some(priority) = words.next() else {
        return Ok(None);
    };
    let Some(path) = words.next() else {
        return Ok(None);
    };
    let Some(last) = words.next() else {
        return wish_with(alloc, priority, path, Reach::Path);
    };
    if words.next().is_none() && last == b"below".as_slice() {
        wish_with(alloc, priority, path, Reach::Below)
    } else {
        Ok(None)
    }
}

/// Puts a wish after the others, if there may be one more.
fn put_wish(wishes: &mut Profile, wish: Wish, number: u64) -> Result<(), EventFault>
    ensures { LeavesWishes (wish_after wishes.old (Some wish) number) result wishes.new }
{
    if wishes.len() >= WISH_LIMIT {
        return Err(EventFault::TooMany { line: number });
    }
    wishes.push(wish)?;
    Ok(())
}

/// Takes a line inside a profile, with the wishes that came before it.
fn take_line(
    alloc: Global,
    line: &[u8],
    number: u64,
    wishes: &mut Profile,
) -> Result<(), EventFault>
    ensures { LeavesWishes (after_line line.now number wishes.old) result wishes.new }
{
    if !fits_line(line) {
        return Err(EventFault::BadLine { line: number });
    }
    if is_skipped(line) {
        return Ok(());
    }
    match wish_of_line(alloc, line)? {
        Some(wish) => put_wish(wishes, wish, number),
        None => Err(EventFault::BadLine { line: number }),
    }
}

/// Parses a profile whose first line inside has this number.
pub(crate) fn parse_profile(
    alloc: Global,
    block: &Closed,
    first: u64,
) -> Result<Profile, EventFault>
    requires { first + length block.now.inside.now < 2 ^ 64 }
    ensures { AnswersWishes (profile_of (closed_of block.now) first) result }
{
    let mut wishes = Profile::new(alloc);
    let mut number = first;
    for line in split_lines(block.inside) {
        take_line(alloc, line, number, &mut wishes)?;
        number += 1;
    }
    if fits_line(block.closing) {
        Ok(wishes)
    } else {
        Err(EventFault::BadLine { line: number })
    }
}
