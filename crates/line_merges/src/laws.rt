//! Laws of merges: each function here proves one, and does nothing when it is called.
ghost use Rattle.line_merges.specs.Laws.{LinesKeepBytes, MergesAreInOrder, MergesAreOne, MergesKeepLogs, MergesKeepTogether};
ghost use Rattle.line_merges.specs.SortLaws.{FarLinesAreTold, LateLinesAreTold, SortsAreInOrder};
ghost use Rattle.line_merges.specs.TextLaws.{TextsAreMerged};

/// A merge has the lines of each log, in their order, and no others.
pub fn merges_keep_logs()
    ensures { MergesKeepLogs }
{}

/// Where each log is in order, so is the merge, and lines of one instant are in the order of their
/// logs.
pub fn merges_are_in_order()
    ensures { MergesAreInOrder }
{}

/// Logs have one merge.
pub fn merges_are_one()
    ensures { MergesAreOne }
{}

/// A line without an instant follows the line before it in its log.
pub fn merges_keep_together()
    ensures { MergesKeepTogether }
{}

/// The lines of a log have all its bytes.
pub fn lines_keep_bytes<M>()
    ensures { LinesKeepBytes M }
{}

/// The text of a merge has the lines of the merge, each once and no others. The lines of a log
/// have all bytes of the log. If no line of a log is earlier than the line before it, no line of
/// the merge is.
pub fn texts_are_merged<M>()
    ensures { TextsAreMerged M }
{}

/// No line of a sorted log is earlier than the one before it.
pub fn sorts_are_in_order()
    ensures { SortsAreInOrder }
{}

/// `sort` reports no line of a log as late exactly if none is earlier than a line before it by more
/// than the window.
pub fn late_lines_are_told()
    ensures { LateLinesAreTold }
{}

/// `sort` reports no line of a log as far exactly if the order has each line within the number of
/// lines from its place in the log.
pub fn far_lines_are_told()
    ensures { FarLinesAreTold }
{}
