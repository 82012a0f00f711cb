// The clear of a journal, in place. Window by window of keys, each entry up to the stamp that is not the one shown for its place loses its own stamp,
// which marks it in the journal itself, since there is no heap for marks; then the entries that are left move to the front. A pass goes from the last
// entry back: since the newest is shown, the first entry met of a place is the one shown, and those met after it are superseded. Which keys were seen
// stands in a table of bits. A key is a place by its quarter hour first and its point second, and a quarter hour has as many keys as the group has
// points: entries of some months lie in a window or two, however many points there are, and the fewer there are the longer is the time that a window
// holds.
#![tactic(auto)]

ghost use Rattle.std.specs.Prelude.{◌≡◌, ◌+◌, ◌*◌, ◌/◌, ◌<◌, ◌≤◌, length, cond, Some};
ghost use Rattle.journal.specs.Stored.{entries, entry_at};
ghost use Rattle.journal.specs.Damage.{RightFor};
ghost use Rattle.journal_clear.specs.Cleared.{JournalCleared};
ghost use Rattle.journal_clear.specs.Marks.{is_less, is_left, Passed, Marked, Compacted};
ghost use Rattle.journal_clear.specs.Seen.{has_seen, Saw, Turned};

use journal::{ENTRY, Entry, POINT_PLACES};

// How many keys a window has.
const WINDOW: u64 = 1048576;

// How many words the table of bits has: a bit for each key of a window. Bits by hand, since the memory is fixed and there is no heap for a set.
const WORDS: usize = WINDOW as usize / 64;

// What a pass marks: entries of a group of so many points, up to a stamp, in the window of the keys from `lo` on.
#[derive(Clone, Copy)]
struct Window {
    points: u64,
    stamp: u64,
    lo: u64,
}

// Whether key number k of the window was seen: bit k % 64 of word k / 64.
fn has(seen: &[u64], k: usize) -> bool
    requires { k < 64 * length seen.now }
    ensures { result ≡ has_seen seen.now k }
{
    (seen[k / 64] >> (k % 64)) % 2 == 1
}

// Key number k of the window is seen.
fn see(seen: &mut [u64], k: usize)
    requires { k < 64 * length seen.old }
    ensures { Saw seen.old k seen.new }
{
    seen[k / 64] |= 1 << (k % 64);
}

// The lesser of a key and the least one so far, if there is one.
fn lesser(next: Option<u64>, key: u64) -> Option<u64>
    ensures { result ≡ cond (is_less key next) (Some key) next }
{
    Some(next.map_or(key, |least| least.min(key)))
}

// What is written below is a flat slice: of arrays that `as_chunks_mut` lends out nothing is known of what the slice ends as.

impl Window {
    // One entry of a pass, by its number. Up to the stamp and in the window, it loses its stamp where its key was seen, and its key is seen where it was
    // not. Returns the least key beyond the window among this entry and those before, if there is one.
    fn turn(self, numbers: &mut [u64], seen: &mut [u64], i: usize, next: Option<u64>) -> Option<u64>
        requires { (3 * i + 3 ≤ length numbers.old) × (length seen.old ≡ 16384) × (self.points ≤ 64) }
        ensures { Turned self.points self.lo self.stamp (entry_at numbers.old i) i numbers.old seen.old next numbers.new seen.new result }
    {
        let place = numbers[ENTRY * i + 1];
        let key = place % POINT_PLACES * self.points + place / POINT_PLACES;
        if key < self.lo {
            return next;
        }
        let k = key - self.lo;
        if k >= WINDOW {
            return lesser(next, key);
        }
        if self.stamp < numbers[ENTRY * i] {
            return next;
        }
        let at = k as usize;
        if has(seen, at) {
            numbers[ENTRY * i] = 0;
            return next;
        }
        see(seen, at);
        next
    }

    // Marks the superseded entries whose keys are in the window: of a place, all up to the stamp but the first one met from the last entry back. Returns
    // the least key beyond the window, if there is one. As a fold its proof did not close: of a closure that changes the journal and the table, which it
    // captures, nothing is known.
    fn pass(self, numbers: &mut [u64]) -> Option<u64>
        requires { self.points ≤ 64 }
        ensures { Passed self.points self.lo self.stamp (length numbers.old / 3) numbers.old numbers.new result }
    {
        let mut seen = [0; WORDS];
        let mut next = None;
        for i in (0..numbers.len() / ENTRY).rev() {
            next = self.turn(numbers, &mut seen, i, next);
        }
        next
    }
}

// Marks every superseded entry: a pass for the window from 0 on, then one for each window that has an entry's key.
fn mark(numbers: &mut [u64], points: u64, stamp: u64)
    requires { RightFor points (entries (length numbers.old / 3) numbers.old) }
    ensures { Marked stamp (length numbers.old / 3) numbers.old numbers.new }
{
    let mut next = Some(0);
    while let Some(lo) = next {
        next = Window { points, stamp, lo }.pass(numbers);
    }
}

// Whether an entry is left: it has a stamp, and its day is not below `day`.
fn left(entry: Entry, day: u64) -> bool
    ensures { result ≡ is_left day entry }
{
    entry.stamp != 0 && day <= entry.place / 100 % calendar::DAYS
}

// Moves the entries that are left to the front, in order, in place since there is no heap. Returns how many they are.
fn compact(numbers: &mut [u64], day: u64) -> usize
    ensures { Compacted day (length numbers.old / 3) numbers.old numbers.new result }
{
    let mut moved = 0;
    for i in 0..numbers.len() / ENTRY {
        let entry = Entry::from(numbers.as_chunks::<ENTRY>().0[i]);
        if left(entry, day) {
            journal::put(numbers, moved, entry);
            moved += 1;
        }
    }
    moved
}

// Clears the first `count` entries, of a group of so many points, in place: those that K = day and P = stamp keep move to the front, in order,
// the emptied numbers become 0. Returns how many are kept. The count comes beside the journal since the record of the C interface has it so.
pub fn keep(journal: &mut [u64], count: usize, points: u64, day: u64, stamp: u64) -> usize
    requires { (3 * count ≤ length journal.old) × RightFor points (entries count journal.old) }
    ensures { JournalCleared day stamp count journal.old journal.new result }
{
    let numbers = &mut journal[..ENTRY * count];
    mark(numbers, points, stamp);
    let kept = compact(numbers, day);
    numbers[ENTRY * kept..].fill(0);
    kept
}
