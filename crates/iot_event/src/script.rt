//! The lines of a script.
ghost use Rattle.std.specs.Prelude.{◌≡◌, ◌+◌, ◌<◌, ◌^◌, ◌++◌, ◌∷◌, [], length};
ghost use Rattle.iot_lines.specs.Lines.{lines};
ghost use Rattle.iot_event.specs.Scripts.{first_unfit};
ghost use Rattle.iot_event.specs.Results.{closed_of, AnswersLines};
ghost use Rattle.iot_event.specs.FirstFault.{FitsNumbers, first_fault};

use crate::bytes::fits_line;
use crate::closing::Closed;
use crate::fault::EventFault;
use iot_lang::{LangFault, Script};
use iot_lines::split_lines;
use std::alloc::Global;

/// The place, from 0, of the first line that breaks the rule on bytes and length.
fn first_unfit(inside: &[u8], closing: &[u8]) -> Option<u64>
    ensures { result ≡ first_unfit (lines inside.now ++ closing.now ∷ []) }
{
    let mut place: u64 = 0;
    for line in split_lines(inside) {
        if !fits_line(line) {
            return Some(place);
        }
        place += 1;
    }
    if fits_line(closing) {
        None
    } else {
        Some(place)
    }
}

/// The fault of a script that the language refuses, one of whose lines may break the rule on bytes and length.
/// It is that of the earlier line; in one line the rule on bytes and length comes first.
fn first_fault(refused: LangFault, unfit: Option<u64>, first: u64) -> EventFault
    requires { FitsNumbers refused unfit first }
    ensures { result ≡ first_fault refused unfit first }
{
    match refused {
        LangFault::NoMemory => EventFault::NoMemory,
        LangFault::BadStatement { line } => match unfit {
            Some(place) if place <= line => EventFault::BadLine {
                line: first + place,
            },
            _ => EventFault::BadStatement { line: first + line },
        },
        LangFault::TooDeep { line } => match unfit {
            Some(place) if place <= line => EventFault::BadLine {
                line: first + place,
            },
            _ => EventFault::TooDeep { line: first + line },
        },
    }
}

/// Parses a script whose first line inside has this number.
pub(crate) fn parse_script(alloc: Global, script: &Closed, first: u64) -> Result<Script, EventFault>
    requires { first + length script.now.inside.now < 2 ^ 64 }
    ensures { AnswersLines (closed_of script.now) first result }
{
    let unfit = first_unfit(script.inside, script.closing);
    match iot_lang::parse(alloc, script.inside) {
        Err(refused) => Err(first_fault(refused, unfit, first)),
        Ok(code) => match unfit {
            None => Ok(code),
            Some(place) => Err(EventFault::BadLine {
                line: first + place,
            }),
        },
    }
}
