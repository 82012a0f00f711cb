// A point's readings in the four earlier weeks, looked up in the journal when they are needed, in one pass back for a point, and their mean.
ghost use Rattle.std.specs.Prelude.{◌≡◌, ◌*◌, ◌<◌, ◌≤◌, map, length, SomeIff};
ghost use Rattle.values.specs.Values.{magnitude_most};
ghost use Rattle.journal.specs.Stored.{entries_in};
ghost use Rattle.lookup.specs.Mean.{nearest};
ghost use Rattle.lookup.specs.Substitutes.{existing};
ghost use Rattle.lookup.specs.Working.{earlier_values, nowhere, earlier_place, all_sought, without, passed, first_near, is_near, near_end, Summed};

use super::Lookup;
use journal::Entry;

// What a pass back through the journal knows of a point's earlier weeks: the place of each week that is sought, and none once it has been met or where
// it has no place; the sum of the magnitudes met, and how many they are.
#[derive(Clone, Copy)]
pub struct Weeks {
    pub places: [Option<u64>; 4],
    pub sum: u64,
    pub count: u64,
}

// The days of a week.
const WEEK_DAYS: u64 = 7;

// How many earlier weeks there are.
const WEEKS: u64 = 4;

// How many days before a day the earliest of them lies.
pub const EARLIER_DAYS: u64 = WEEKS * WEEK_DAYS;

// How many places a point has on so many days and one more: they are the near ones.
const NEAR_PLACES: u64 = 100 * (EARLIER_DAYS + 1);

// The places that are still sought once a place has been met: it is sought no more. A function of its own: as a line of `pass` its proof did not close.
fn left(places: [Option<u64>; 4], place: u64) -> [Option<u64>; 4]
    ensures { result ≡ map (without place) places }
{
    places.map(|sought| sought.filter(|other| *other != place))
}

impl Weeks {
    // One entry of the pass: where its place is sought, and it is not later than `until`, its week is met.
    #[tactic(auto, unfolding(crate::specs::Working::passed))]
    fn pass(&mut self, entry: Entry, until: u64)
        requires { (self.old.sum ≤ 4 * magnitude_most) × (self.old.count ≤ 4) × (entry.stored ≤ magnitude_most) }
        ensures { self.new ≡ passed until entry self.old }
    {
        if self.places.contains(&Some(entry.place)) && entry.stamp <= until {
            self.places = left(self.places, entry.place);
            self.sum += entry.stored;
            self.count += 1;
        }
    }

    // The mean of the magnitudes met, rounded to the nearest whole number, halves up; none where no week was met.
    #[tactic(auto, using(crate::proofs::Nearest::nearest_down, crate::proofs::Nearest::nearest_up))]
    pub fn mean(&self) -> Option<u64>
        ensures { SomeIff result (1 ≤ self.now.count) (nearest self.now.sum self.now.count) }
    {
        let whole = self.sum.checked_div(self.count)?;
        let rest = self.sum % self.count;
        if rest < self.count - rest {
            Some(whole)
        } else {
            Some(whole + 1)
        }
    }
}

// Whether a place is one of the near ones, by one comparison: a place below the first of them wraps round to a number far above.
fn is_near(first: u64, place: u64) -> bool
    requires { first < nowhere }
    ensures { result ≡ is_near first place }
{
    place.wrapping_sub(first) < NEAR_PLACES
}

impl Lookup<'_> {
    // The place of a point's quarter hour so many weeks before, at the same time of day by the wall clock: the first of a doubled hour, none of a missing
    // one, and none before day 0.
    #[tactic(auto, using(crate::proofs::Earlier::first_at_within), unfolding(crate::specs::Earlier::earlier))]
    fn earlier_place(&self, point: u64, weeks: u8) -> Option<u64>
        requires { point < 64 }
        ensures { result ≡ earlier_place point self.now.asked weeks }
    {
        let day = self.asked.day.checked_sub(WEEK_DAYS * u64::from(weeks))?;
        let start = wall_clock::quarter_start(self.asked.day, self.asked.quarter);
        let quarter = wall_clock::first_at(day, start.minutes)?;
        Some(journal::place(point, day, quarter))
    }

    // All four earlier weeks are sought, and nothing is met.
    fn all_sought(&self, point: u64) -> Weeks
        requires { point < 64 }
        ensures { result ≡ all_sought point self.now.asked }
    {
        Weeks {
            places: [1, 2, 3, 4].map(|weeks| self.earlier_place(point, weeks)),
            sum: 0,
            count: 0,
        }
    }

    // The first near place of a point: it is of the day four weeks before, or of day 0 where there are fewer days before.
    fn first_near(&self, point: u64) -> u64
        requires { point < 64 }
        ensures { result ≡ first_near point self.now.asked }
    {
        journal::place(point, self.asked.day.saturating_sub(EARLIER_DAYS), 1)
    }

    // How many of the first `count` entries are left once those at the end that are of no near place are left out. A loop of its own, for speed: with
    // this test inside a loop of `earlier_weeks` over the entries an evaluation took up to a third more time. By number: a sketch with `rposition` was
    // slower too.
    fn near_end(&self, count: usize, first: u64) -> usize
        requires { (count ≤ length self.now.entries.now) × (first < nowhere) }
        ensures { result ≡ near_end first self.now.entries.now count }
    {
        for i in (0..count).rev() {
            if is_near(first, self.entries[i][1]) {
                return i + 1;
            }
        }
        0
    }

    // The sum and the number of the readings that a point has in the earlier weeks. The stamps rise, so from the last entry back the first that is met of
    // a place is the newest; the pass ends when all four weeks are met.
    pub(crate) fn earlier_weeks(&self, point: u64) -> Weeks
        requires { point < 64 }
        ensures { Summed (existing (earlier_values (entries_in self.now.entries.now) self.now.asked point)) result }
    {
        let near = self.first_near(point);
        let mut weeks = self.all_sought(point);
        let mut end = self.near_end(self.entries.len(), near);
        // by number, as `near_end` gives it
        while end > 0 {
            let i = end - 1;
            weeks.pass(Entry::from(self.entries[i]), self.asked.until);
            if weeks.count == WEEKS {
                return weeks;
            }
            end = self.near_end(i, near);
        }
        weeks
    }
}
