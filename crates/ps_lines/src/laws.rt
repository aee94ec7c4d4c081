//! Laws of lines: functions that do nothing, whose contracts state a fact. They are part of the public interface.

ghost use Rattle.ps_lines.specs.PullReplies.{PullsReturnDeltas};
ghost use Rattle.ps_lines.specs.Streams.{DividesOneWay};

/// States that bytes divide in only one way into lines and a rest without a line feed.
pub fn bytes_divide_one_way()
    ensures { DividesOneWay }
{}

/// States that a `pull` with deltas left to return is never refused as too long, if each delta of the history fits on
/// a line. The reply then has at least the next delta.
///
/// Each delta fits on a line if the history is empty, and a session (`run` of `ps_session`) preserves that property.
pub fn pulls_return_deltas()
    ensures { PullsReturnDeltas }
{}
