//! What a chart tells of a history.
ghost use Rattle.std.specs.Prelude.{ℕ, Bool, List};
ghost use Rattle.net_base.specs.declared.history.Entry.{Entry};
ghost use Rattle.net_chart.specs.Laws.{TellsFrames};
ghost use Rattle.net_chart.specs.TalkLaws.{EndsThere, TellsTalks};
ghost use Rattle.net_chart.specs.Ways.{ShowsWays};

/// What is drawn of a history has one cross for each frame of which no copy arrives, and one arrow for each copy that comes of a
/// frame.
pub fn frames_are_told()
    ensures { (brief : Bool) (h : List Entry) → TellsFrames brief h }
{}

/// Each arrow goes from where its frame was laid last to where the copy came, and each cross stands where its frame was laid, with
/// the frame's number and station.
pub fn ways_are_shown()
    ensures { (brief : Bool) (h : List Entry) → ShowsWays brief h }
{}

/// What is drawn of conversations has one cross for each lost frame that starts in a column, and one arrow for each copy of a frame
/// that comes from a column to a column.
pub fn talks_are_told()
    ensures { (brief : Bool) (h : List Entry) → TellsTalks brief h }
{}

/// On a chart of conversations an arrow ends in the column of the conversation to which its copy was brought.
pub fn arrows_end_there()
    ensures { (h : List Entry) (stamp : ℕ) → EndsThere h stamp }
{}
