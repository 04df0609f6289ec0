//! The choice of the next line.
ghost use Rattle.std.specs.Prelude.{◌≡◌, ◌<◌, length, IfNone, IfSome};
ghost use Rattle.line_merges.specs.Choices.{HaveEnded, IsNext, is_better, log_fronts};

use crate::instants::is_before;
use crate::logs::Log;

/// Returns the number of the log that has the next line: the first of those with the least instant.
pub(crate) fn next_log<R, M>(logs: &[Log<R, M>]) -> Option<usize>
    ensures next { IfSome result (λ k. IsNext (log_fronts logs.now) k) }
    ensures within { IfSome result (λ k. k < length logs.now) }
    ensures ended { IfNone result (HaveEnded (log_fronts logs.now)) }
{
    let mut best: Option<(usize, Option<i128>)> = None;
    for (k, log) in logs.iter().enumerate() {
        if log.front.has_line && is_better(log.front.next, best) {
            best = Some((k, log.front.next));
        }
    }
    match best {
        Some((k, _)) => Some(k),
        None => None,
    }
}

// Whether an instant is before the best so far.
fn is_better(instant: Option<i128>, best: Option<(usize, Option<i128>)>) -> bool
    ensures { result ≡ is_better instant best }
{
    match best {
        None => true,
        Some((_, least)) => is_before(instant, least),
    }
}
