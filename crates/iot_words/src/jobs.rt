//! The jobs.
ghost use Rattle.std.specs.Prelude.{◌≡◌, option_map};
ghost use Rattle.iot_words.specs.Jobs.{chosen};

use crate::numbers::number_of;

/// What the program is asked to do.
#[derive(Clone, Copy, Debug, PartialEq, Eq)]
pub enum Job {
    /// Do events, and write something of them.
    Run(Run),

    /// Write the tree and the log of the state for which the input stands, which is an image of a server's disk.
    Image,

    /// Write a disk of version 2 that stands for the same state as the input, which is an image of a server's disk.
    Upgrade,

    /// Check an image of a server's disk against an event script. The input is the script with its length before it, and
    /// then the image.
    Audit,
}

/// Which events are done, and what is written of them.
#[derive(Clone, Copy, Debug, PartialEq, Eq)]
pub enum Run {
    /// Those of the input, and their transcript.
    Transcript,

    /// Those of the input, and the last state as JSON.
    Json,

    /// Those of the text that is generated from this number, at most 1,000,000, and a summary.
    Generate(u64),

    /// Those of the input, and the bytes of the server's disk.
    Save,
}

/// The job, by which flags were given and the text that `--gen` was given.
pub(crate) fn chosen(
    json: bool,
    save: bool,
    image: bool,
    upgrade: bool,
    audit: bool,
    text: Option<&str>,
) -> Option<Job>
    ensures { result ≡ chosen json save image upgrade audit (option_map (λ s. s.now) text.entry) }
{
    match (json, save, image, upgrade, audit, text) {
        (false, false, false, false, false, None) => Some(Job::Run(Run::Transcript)),
        (true, false, false, false, false, None) => Some(Job::Run(Run::Json)),
        (false, true, false, false, false, None) => Some(Job::Run(Run::Save)),
        (false, false, true, false, false, None) => Some(Job::Image),
        (false, false, false, true, false, None) => Some(Job::Upgrade),
        (false, false, false, false, true, None) => Some(Job::Audit),
        (false, false, false, false, false, Some(text)) => {
            number_of(text).map(Run::Generate).map(Job::Run)
        }
        _ => None,
    }
}
