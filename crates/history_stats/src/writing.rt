//! Writing statistics.
ghost use Rattle.std.specs.Prelude.{◌≡◌, ◌+◌, ◌≤◌, ◌++◌, decimal, length, []};
ghost use Rattle.std.specs.Option.{option_map_or};
ghost use Rattle.text_lines.specs.Writing.{Writes};
ghost use Rattle.history_stats.specs.Text.{decimal_of_tenths, overtaking_line};
ghost use Rattle.history_stats.specs.Text.{overtakings_text, statistic_line, statistics_text};

use crate::overtaking::Overtaking;
use crate::statistics::Statistics;
use text_lines::{TextSink, WriteBuffer, WriteFault, write_piece};

/// Writes the lines of statistics, each a name, a space and a value. The writer isn't flushed.
pub fn write_statistics<W: TextSink>(
    statistics: &Statistics,
    writer: &mut W,
) -> Result<(), WriteFault>
    ensures { Writes W.contents W.has_refused W.transition
        (statistics_text statistics.now) writer.old writer.new result }
{
    let mut kept = WriteBuffer::new();
    push_statistics(&mut kept, statistics);
    write_piece(kept.as_slice(), writer)
}

/// Writes a line for each dequeue that overtook values: their number, the ticket of its call and its value. The
/// writer isn't flushed.
pub fn write_overtakings<W: TextSink>(
    overtakings: &[Overtaking],
    writer: &mut W,
) -> Result<(), WriteFault>
    ensures { Writes W.contents W.has_refused W.transition
        (overtakings_text overtakings.now) writer.old writer.new result }
{
    let mut kept = WriteBuffer::new();
    for overtaking in overtakings {
        kept.clear();
        push_overtaking(&mut kept, *overtaking);
        write_piece(kept.as_slice(), writer)?;
    }
    Ok(())
}

/// Appends the line of an overtaking.
fn push_overtaking(kept: &mut WriteBuffer, overtaking: Overtaking)
    requires { kept.old ≡ [] }
    ensures { kept.new ≡ overtaking_line overtaking }
{
    kept.push_number(overtaking.count as u64);
    kept.push(b" ");
    kept.push_number(overtaking.ticket);
    kept.push(b" ");
    kept.push_number(overtaking.value);
    kept.push(b"\n");
}

/// Appends all lines.
fn push_statistics(kept: &mut WriteBuffer, statistics: &Statistics)
    requires { kept.old ≡ [] }
    ensures { kept.new ≡ statistics_text statistics.now }
{
    push_line(kept, b"events", statistics.events);
    push_line(kept, b"operations", statistics.operations);
    push_line(kept, b"threads", statistics.threads);
    push_line(kept, b"enqueued", statistics.enqueued);
    push_line(kept, b"refused", statistics.refused);
    push_line(kept, b"dequeued", statistics.dequeued);
    push_line(kept, b"empty", statistics.empty);
    push_line(kept, b"initial", statistics.initial);
    push_line(kept, b"thread-changes", statistics.thread_changes);
    push_line(kept, b"overlapping", statistics.overlapping);
    push_tenths_line(kept, b"overlapping-percent", statistics.overlapping_tenths);
    push_line(kept, b"most-pending", statistics.most_pending);
    push_line(kept, b"most-in-queue", statistics.most_queued);
    push_line(kept, b"overtakes", statistics.overtakes);
    push_line(kept, b"overtaken-at-most", statistics.overtaken_at_most);
    push_known_line(kept, b"refused-at", statistics.refused_at);
}

/// Appends the line of a number.
fn push_line(kept: &mut WriteBuffer, name: &[u8], value: usize)
    requires room { length kept.old + 64 ≤ 4096 }
    requires short_name { length name.now ≤ 20 }
    ensures line { kept.new ≡ kept.old ++ statistic_line name.now (decimal value) }
    ensures short { length kept.new ≤ length kept.old + 64 }
{
    kept.push(name);
    kept.push(b" ");
    kept.push_number(value as u64);
    kept.push(b"\n");
}

/// Appends the line of a number, if there is one.
fn push_known_line(kept: &mut WriteBuffer, name: &[u8], value: Option<usize>)
    requires room { length kept.old + 64 ≤ 4096 }
    requires short_name { length name.now ≤ 20 }
    ensures line { kept.new ≡ kept.old ++ option_map_or (λ n. statistic_line name.now (decimal n)) value [] }
{
    if let Some(number) = value {
        push_line(kept, name, number);
    }
}

/// Appends the line of a number of tenths.
fn push_tenths_line(kept: &mut WriteBuffer, name: &[u8], tenths: usize)
    requires room { length kept.old + 64 ≤ 4096 }
    requires short_name { length name.now ≤ 20 }
    ensures line { kept.new ≡ kept.old ++ statistic_line name.now (decimal_of_tenths tenths) }
    ensures short { length kept.new ≤ length kept.old + 64 }
{
    kept.push(name);
    kept.push(b" ");
    kept.push_number((tenths / 10) as u64);
    kept.push(b".");
    kept.push_number((tenths % 10) as u64);
    kept.push(b"\n");
}
