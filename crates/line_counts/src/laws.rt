//! Laws of counts: each function here proves one, and does nothing when it is called.
ghost use Rattle.line_counts.specs.Laws.{CountsAddUp, EmptyRunsAddUp};
ghost use Rattle.line_counts.specs.RowLaws.{NoRowIsLeftOut};

/// The rows of a bucket have together as many lines as the input has in that bucket, in any order.
pub fn counts_add_up<M>()
    ensures { CountsAddUp M }
{}

/// The number in place of rows is that of the buckets without lines there.
pub fn empty_runs_add_up<M>()
    ensures { EmptyRunsAddUp M }
{}

/// A line of another bucket ends the row. Each bucket between them has a row of 0, in their order,
/// so that none is left out. If these are more than have rows, the text in their place has their
/// number.
pub fn no_row_is_left_out<M>()
    ensures { NoRowIsLeftOut M }
{}
