// The journal: a lent list of numbers, three an entry: stamp, place, and the magnitude that is stored.
#![tactic(auto)]

ghost use Rattle.std.specs.Prelude.{◌≡◌, ◌&&◌, ℕ, ◌+◌, ◌*◌, ◌/◌, ◌%◌, ◌≤◌, ◌<◌, length, leb, ltb};
ghost use Rattle.lists.specs.Place.{placed};
ghost use Rattle.calendar.specs.Dates.{last_day};
ghost use Rattle.calendar.specs.Quarters.{quarter_exists};
ghost use Rattle.journal.specs.Readings.{shown};
ghost use Rattle.journal.specs.Entries.{point_places, place_of, readings_at};
ghost use Rattle.journal.specs.Stored.{entry_in, entries_in, entries, numbers};
ghost use Rattle.journal.specs.Damage.{entry_right, entries_right, Right};
ghost use Rattle.journal.specs.Value.{stored_right};
ghost use Rattle.journal.specs.Found.{found};

// How many numbers an entry has.
pub const ENTRY: usize = 3;

// How many places a point has: 100 for each day of the calendar.
pub const POINT_PLACES: u64 = 100 * calendar::DAYS;

// An entry of the journal: the stamp of its reading, its place, and the magnitude that is stored.
#[derive(Clone, Copy, PartialEq, Eq, Debug)]
pub struct Entry {
    pub stamp: u64,
    pub place: u64,
    pub stored: u64,
}

// An entry from its three numbers.
impl From<[u64; 3]> for Entry {
    ghost from_gives = { λ numbers entry. entry ≡ entry_in numbers };

    fn from(numbers: [u64; 3]) -> Entry {
        let [stamp, place, stored] = numbers;
        Entry {
            stamp,
            place,
            stored,
        }
    }
}

// The three numbers of an entry.
impl From<Entry> for [u64; 3] {
    ghost from_gives = { λ entry stands. stands ≡ numbers entry };

    fn from(entry: Entry) -> [u64; 3] {
        [entry.stamp, entry.place, entry.stored]
    }
}

// The first `count` entries of a journal, each as its three numbers. The count comes beside the journal since the record of the C interface has it so.
#[tactic(auto, using(crate::proofs::Stored::front_entries))]
pub fn entries(journal: &[u64], count: usize) -> &[[u64; 3]]
    requires { 3 * count ≤ length journal.now }
    ensures { entries_in result.now ≡ entries count journal.now }
{
    let (entries, _) = journal[..ENTRY * count].as_chunks::<ENTRY>();
    entries
}

// The place of a point, day and quarter.
pub fn place(point: u64, day: u64, quarter: u64) -> u64
    requires { (point ≤ 64) × (day ≤ last_day) × (1 ≤ quarter) × (quarter ≤ 100) }
    ensures { result ≡ place_of point day quarter }
{
    (point * calendar::DAYS + day) * 100 + (quarter - 1)
}

// The entry shown for a place as of a stamp: the stamps rise, so the last entry for the place with a stamp up to `until` is the newest.
pub fn shown(entries: &[[u64; 3]], place: u64, until: u64) -> Option<Entry>
    requires { Right (entries_in entries.now) }
    ensures { found result ≡ shown until (readings_at (entries_in entries.now) place) }
{
    entries
        .iter()
        .rev()
        .find(|[stamp, at, _]| *at == place && *stamp <= until)
        .map(|numbers| Entry::from(*numbers))
}

// Stores entry number i, by its number over a flat list. Over arrays of three its proof did not close: of those that `as_chunks_mut` lends out nothing is
// known of what the slice ends as.
#[tactic(auto, using(std::proofs::lemmas::Slice::overwrites), unfolding(lists::specs::Place::placed))]
pub fn put(journal: &mut [u64], i: usize, entry: Entry)
    requires { 3 * i + 3 ≤ length journal.old }
    ensures { journal.new ≡ placed (3 * i) (numbers entry) journal.old }
{
    let at = ENTRY * i;
    let numbers: [u64; ENTRY] = entry.into();
    journal[at..at + ENTRY].copy_from_slice(&numbers);
}

// Whether a day has a quarter, both as one number, day × 100 + quarter − 1.
fn quarter_right(slot: u64) -> bool
    requires { slot < point_places }
    ensures { result ≡ quarter_exists (slot / 100) (slot % 100 + 1) }
{
    calendar::exists(slot / 100, slot % 100 + 1)
}

// Whether an entry is right, but for its stamp: its point, by the first place that is no point's, its day, by the first place of the kept day, its
// magnitude, and last its quarter, for which the calendar is asked.
fn entry_right(place: u64, stored: u64, end: u64, first: u64) -> bool
    ensures { result ≡ (ltb place end && leb first (place % point_places) && stored_right stored && quarter_exists (place % point_places / 100) (place % point_places % 100 + 1)) }
{
    // a test of its own: as one expression with the others it misses the bar of speed
    if place >= end {
        return false;
    }
    let slot = place % POINT_PLACES;
    first <= slot && stored <= values::MAGNITUDE_MOST && quarter_right(slot)
}

// Whether the entries are right: their stamps rise within 1..last, and each is right.
#[tactic(auto, using(crate::proofs::Rules::none_left))]
pub fn right(entries: &[[u64; 3]], points: u64, kept_day: u64, last: u64) -> bool
    requires { (points ≤ 64) × (kept_day ≤ last_day) }
    ensures { result ≡ entries_right points kept_day last 0 (entries_in entries.now) }
{
    let end = points * POINT_PLACES;
    let first = kept_day * 100;
    let mut before = 0;
    for &[stamp, place, stored] in entries {
        if stamp <= before || stamp > last || !entry_right(place, stored, end, first) {
            return false;
        }
        before = stamp;
    }
    true
}
