//! What texts tell.
ghost use Rattle.transcript.specs.Telling.{PrintedTell, TextsTell, TextsTellWords};

/// Histories with the same text have the same words, entry by entry.
pub fn texts_tell_words()
    ensures { TextsTellWords }
{}

/// Plain histories with the same text are equal.
pub fn plain_texts_tell()
    ensures { TextsTell }
{}

/// What is printed of a run, a plain history's text with a summary behind it, has one such history.
pub fn printed_runs_tell()
    ensures { PrintedTell }
{}
