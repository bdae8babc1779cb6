//! The maximum number of things that are present at once, when they come and go at tickets.
ghost use Rattle.std.specs.Prelude.{◌≡◌, ◌+◌, ◌-◌, ◌<◌, ◌≤◌, ◌^◌, length, vec_len};
ghost use Rattle.std.specs.List.Sorted.{IsNonDecreasing};
ghost use Rattle.history_stats.specs.AtOnce.{IsMost};
ghost use Rattle.history_stats.specs.Inner.AtOnce.{count_before};

/// Returns the maximum number present at one gap: `first` are present from the beginning, one comes at each ticket of
/// `arrivals`, and one leaves at each of `departures`.
///
/// Takes O(n log n) time for n tickets, and no memory.
pub(crate) fn most_of(first: usize, mut arrivals: Vec<u64>, mut departures: Vec<u64>) -> usize
    requires few { first + vec_len arrivals < 2 ^ 63 }
    ensures { IsMost (λ gap. first + count_before gap arrivals.items - count_before gap departures.items) result }
{
    arrivals.sort_unstable();
    departures.sort_unstable();
    most_in_order(first, &arrivals, &departures)
}

/// Returns the maximum number present for sorted tickets, in time in proportion to them.
fn most_in_order(first: usize, arrivals: &[u64], departures: &[u64]) -> usize
    requires arrivals { IsNonDecreasing arrivals.now }
    requires departures { IsNonDecreasing departures.now }
    requires few { first + length arrivals.now < 2 ^ 63 }
    ensures { IsMost (λ gap. first + count_before gap arrivals.now - count_before gap departures.now) result }
{
    let mut most = first;
    let mut gone = 0;
    for (place, come) in arrivals.iter().enumerate() {
        gone = gone_by(departures, gone, *come);
        most = most.max((first + place + 1).saturating_sub(gone));
    }
    most
}

/// Returns the number of departures at this ticket or before it. At least `known` are.
fn gone_by(departures: &[u64], known: usize, ticket: u64) -> usize
    requires departures { IsNonDecreasing departures.now }
    requires known { known ≤ count_before (ticket + 1) departures.now }
    ensures { result ≡ count_before (ticket + 1) departures.now }
{
    let mut gone = known;
    while gone < departures.len() && departures[gone] <= ticket {
        gone += 1;
    }
    gone
}

/// Returns the number of sorted tickets that come before this one. Takes O(log n) time for n tickets.
pub(crate) fn count_before(tickets: &[u64], ticket: u64) -> usize
    requires { IsNonDecreasing tickets.now }
    ensures { result ≡ count_before ticket tickets.now }
{
    tickets.partition_point(|other| *other < ticket)
}

/// Returns the number of sorted tickets that are at most this one. Takes O(log n) time for n tickets.
pub(crate) fn count_by(tickets: &[u64], ticket: u64) -> usize
    requires { IsNonDecreasing tickets.now }
    ensures { result ≡ count_before (ticket + 1) tickets.now }
{
    tickets.partition_point(|other| *other <= ticket)
}
