//! The indexes of one row, where some events go: the indexes of these go too, and each other is
//! lower by as many as go in front of it.

ghost use Rattle.std.specs.Prelude.{◌≡◌, ◌≤◌, ◌<◌, ◌++◌, IsTrue, length, take, drop, get_or, vec_len, vec_capacity};
ghost use Rattle.tb_places.specs.Renumbering.{RiseFrom, below, goes_at, lowered};

/// Closes the gaps that the events at the going indexes leave.
pub fn close(row: &mut Vec<u32>, going: &[u32])
    requires going { RiseFrom 0 going.now }
    requires places { RiseFrom 0 row.old.items }
    ensures lowered { row.new.items ≡ lowered going.now row.old.items }
    ensures capacity { vec_capacity row.new ≡ vec_capacity row.old }
{
    if all_follow(row.as_slice(), going) {
        lower_all(row.as_mut_slice(), going);
        return;
    }
    let from = in_front(row.as_slice(), going);
    if from < row.len() {
        let stay = lower(row.as_mut_slice(), from, going);
        row.truncate(stay);
    }
}

/// How many of the indexes are in front of all that go: they stay as they are.
#[inline(always)]
fn in_front(places: &[u32], going: &[u32]) -> usize
    requires { RiseFrom 0 places.now }
    ensures within { result ≤ length places.now }
    ensures same { take result places.now ++ lowered going.now (drop result places.now)
        ≡ lowered going.now places.now }
{
    let Some(first) = going.first() else {
        return places.len();
    };
    let Some(last) = places.last() else {
        return 0;
    };
    if *last < *first {
        return places.len();
    }
    places.partition_point(|place| *place < *first)
}

/// Whether there are indexes, and all are after all that go.
#[inline(always)]
fn all_follow(places: &[u32], going: &[u32]) -> bool
    requires { RiseFrom 0 going.now }
    ensures { IsTrue result → length going.now ≤ below going.now (get_or places.now 0 0) }
{
    match (going.last(), places.first()) {
        (Some(last), Some(first)) => *last < *first,
        _ => false,
    }
}

/// Lowers indexes of which the first is after all that go.
#[inline(always)]
fn lower_all(places: &mut [u32], going: &[u32])
    requires going { RiseFrom 0 going.now }
    requires places { RiseFrom 0 places.old }
    requires behind { length going.now ≤ below going.now (get_or places.old 0 0) }
    ensures { places.new ≡ lowered going.now places.old }
{
    for at in 0..places.len() {
        let place = places[at];
        places[at] = place - going.len() as u32;
    }
}

/// Moves those from this one on that stay to the front, each lowered. It answers how many stay in all.
fn lower(places: &mut [u32], from: usize, going: &[u32]) -> usize
    requires going { RiseFrom 0 going.now }
    requires places { RiseFrom 0 places.old }
    requires from { from ≤ length places.old }
    ensures stay { take result places.new
        ≡ take from places.old ++ lowered going.now (drop from places.old) }
    ensures len { length places.new ≡ length places.old }
    ensures within { result ≤ length places.new }
{
    let mut stay = from;
    let mut next = 0;
    let mut at = from;
    'pass: while at < places.len() && next < going.len() {
        let place = places[at];
        next = passed(going, next, place);
        if goes(going, next, place) {
            next += 1;
        } else {
            places[stay] = place - next as u32;
            stay += 1;
        }
        at += 1;
    }
    // all that go are passed, so the rest only moves
    'rest: while at < places.len() {
        let place = places[at];
        places[stay] = place - going.len() as u32;
        stay += 1;
        at += 1;
    }
    stay
}

/// How many that go are in front of the index, where so many are.
#[inline(always)]
fn passed(going: &[u32], next: usize, place: u32) -> usize
    requires rise { RiseFrom 0 going.now }
    requires next { next ≤ below going.now place }
    ensures { result ≡ below going.now place }
{
    match going.get(next) {
        Some(gone) if *gone < place => leap(going, next + 1, place),
        _ => next,
    }
}

/// Looks further and further ahead, so that what is far as well as what is close is found in few
/// looks.
fn leap(going: &[u32], next: usize, place: u32) -> usize
    requires rise { RiseFrom 0 going.now }
    requires next { next ≤ below going.now place }
    ensures { result ≡ below going.now place }
{
    let mut from = next;
    let mut width = 1;
    'ahead: while from + width <= going.len() && going[from + width - 1] < place {
        from += width;
        width *= 2;
    }
    let to = going.len().min(from + width);
    from + going[from..to].partition_point(|gone| *gone < place)
}

/// Whether the next that goes is the one at this index.
#[inline(always)]
fn goes(going: &[u32], next: usize, place: u32) -> bool
    ensures goes { result ≡ goes_at place (drop next going.now) }
    ensures within { IsTrue result → next < length going.now }
{
    match going.get(next) {
        Some(gone) => *gone == place,
        None => false,
    }
}
