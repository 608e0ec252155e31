//! Laws of a log, each the contract of a function that does nothing.

ghost use Rattle.lw_node.specs.Exchange.{IsBelow};
ghost use Rattle.lw_log.specs.Log.{Told, ReadersKnow, AppendsCover};
ghost use Rattle.lw_log.specs.Known.{SeenCovers, OwnAppendsCover};

/// What was written before it was told is known to whoever reads the log to its end, at any later time: whatever is
/// appended and trimmed in between, by whomever. Whoever reads to the end has all that was ever appended.
pub fn told_is_known()
    ensures told { Told IsBelow }
    ensures readers { ReadersKnow IsBelow }
{}

/// A process that appends what the log does not cover yet has the log cover all that it knows.
pub fn appends_cover()
    ensures { AppendsCover IsBelow }
{}

/// What a process has seen of its log covers what it covered before, and an entry that it has appended covers its
/// delta.
pub fn seen_covers()
    ensures kept { SeenCovers }
    ensures own { OwnAppendsCover }
{}
