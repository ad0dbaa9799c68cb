//! A commit in the server's list is never lost, and a transcript tells of each commit and each stop.
ghost use Rattle.iot_lasting.specs.Acknowledged.{ACommitIsSaid, AKeptCommitIsSaid, ASettledCommitLasts};
ghost use Rattle.iot_lasting.specs.Lasting.{CommitsKeepTheirNumbers, CommitsLast, EventKeepsCommits, TranscriptsGrow, TranscriptsSplit};
ghost use Rattle.iot_lasting.specs.Promoting.{PromotionKeepsCommits};
ghost use Rattle.iot_lasting.specs.Telling.{EventTells, TranscriptTells};

/// No event takes a commit out of the server's list or moves it.
pub fn an_event_keeps_commits()
    ensures { EventKeepsCommits }
{}

/// After each transcript what is in doubt adds a commit to the server's list.
pub fn transcripts_grow()
    ensures { TranscriptsGrow }
{}

/// A transcript can be split at each of its events.
pub fn transcripts_split()
    ensures { TranscriptsSplit }
{}

/// Whatever is done, the list that a server has, or comes back with after a stop or a crash, begins with each list that it had before.
pub fn commits_last()
    ensures { CommitsLast }
{}

/// So a commit keeps its number.
pub fn commits_keep_their_numbers()
    ensures { CommitsKeepTheirNumbers }
{}

/// A commit's line is said once it is in the list, with the number of its place.
pub fn a_commit_is_said()
    ensures { ACommitIsSaid }
{}

/// So is that of a commit that was in doubt and was kept, when its server comes back: by `restart`, or from its backup by `promote`.
pub fn a_kept_commit_is_said()
    ensures { AKeptCommitIsSaid }
{}

/// No promotion of the server's backup loses a commit whose line was said, or moves it, also if the server stops in it.
pub fn a_promotion_keeps_commits()
    ensures { PromotionKeepsCommits }
{}

/// A transaction of which a client hears that it is settled stands under that number, then and ever after.
pub fn a_settled_commit_lasts()
    ensures { ASettledCommitLasts }
{}

/// Each event tells what it changes: each node has as many stop lines as it has stopped, and the commits that are said are those that are
/// added.
pub fn an_event_tells()
    ensures { EventTells }
{}

/// So does each transcript. What it says of commits is what the commits of the list say, in their order, each once, by numbers from 1.
pub fn a_transcript_tells()
    ensures { TranscriptTells }
{}
