// The values of a group's points in a quarter hour as of a stamp, each with its origin: what each point's own quarter hour shows is gathered in one
// pass over the journal; where there is no reading, the status or the earlier weeks decide on what stands in for it.
#![tactic(auto)]

ghost use Rattle.std.specs.Prelude.{◌≡◌, ◌*◌, ◌<◌, ◌≤◌, length};
ghost use Rattle.journal.specs.Entries.{point_places};
ghost use Rattle.journal.specs.Stored.{entries_in};
ghost use Rattle.lookup.specs.Substitutes.{number_of_origin};
ghost use Rattle.lookup.specs.Working.{Readable, own_value, looked_up_in, value_for, TakenIn, OwnOf, AllOf};

use journal::{Entry, POINT_PLACES};

mod weeks;

pub use weeks::EARLIER_DAYS;

// The quarter hour that is evaluated, and the stamp as of which. A caller may ask for a quarter hour that does not exist: a `Lookup` asks that it exists.
#[derive(Clone, Copy)]
pub struct Asked {
    pub day: u64,
    pub quarter: u64,
    pub until: u64,
}

// A look-up in a journal: its entries, which are right, and the quarter hour that is asked for, which exists.
#[derive(Clone, Copy)]
pub struct Lookup<'a> {
    pub entries: &'a [[u64; 3]],
    pub asked: Asked,
    // In ∥ .. ∥₁, since the entries may be right by more than one number of points, kept day and last stamp.
    pub ghost readable: { ∥ Readable (entries_in entries.now) asked ∥₁ },
}

// Where a point's value comes from: it was measured, it is the mean of so many earlier weeks, 1 to 4, it is zero by the point's status, or zero for lack
// of readings.
#[derive(Clone, Copy, PartialEq, Eq, Debug)]
pub enum Origin {
    Measured,
    Weeks(u64),
    ZeroByStatus,
    ZeroForLack,
}

// The number of an origin in a published result.
impl From<Origin> for u64 {
    ghost from_gives = { λ origin number. number ≡ number_of_origin origin };

    fn from(origin: Origin) -> u64 {
        match origin {
            Origin::Measured => 0,
            Origin::Weeks(weeks) => weeks,
            Origin::ZeroByStatus => 5,
            Origin::ZeroForLack => 6,
        }
    }
}

// A point's value in a quarter hour: its magnitude, and its origin.
#[derive(Clone, Copy, PartialEq, Eq, Debug)]
pub struct PointValue {
    pub magnitude: u64,
    pub origin: Origin,
}

// One entry of the pass over all points: where it is of this quarter hour, and not later than `until`, its point has what it stores. The stamps rise, so
// a later entry, which is the newer reading, takes the place of an earlier one.
fn take_in(own: &mut [Option<u64>], entry: Entry, slot: u64, until: u64)
    requires { (length own.old ≡ 64) × (entry.place < 64 * point_places) × (slot < point_places) }
    ensures { TakenIn entry slot until own.old own.new }
{
    if entry.place % POINT_PLACES == slot && entry.stamp <= until {
        let point = (entry.place / POINT_PLACES) as usize;
        own[point] = Some(entry.stored);
    }
}

impl Lookup<'_> {
    // What each point's own quarter hour shows, if it has a reading, in one pass. An array of 64, since there is no heap.
    fn own_readings(&self) -> [Option<u64>; 64]
        ensures { OwnOf (entries_in self.now.entries.now) self.now.asked result }
    {
        let asked = self.asked;
        let slot = journal::place(0, asked.day, asked.quarter);
        let mut own = [None; 64];
        for numbers in self.entries {
            take_in(&mut own, Entry::from(*numbers), slot, asked.until);
        }
        own
    }

    // The value of a point and its origin: its reading, where its own quarter hour has one, else the substitute: zero by a status above 0, else the mean
    // of the earlier weeks that have a reading, and zero where none has. A status is a number, as the registration has it: only whether it is above 0 is
    // asked.
    fn look_up(&self, point: usize, status: u8, own: Option<u64>) -> PointValue
        requires { (point < 64) × (value_for own ≡ own_value (entries_in self.now.entries.now) self.now.asked point) }
        ensures { result ≡ looked_up_in (entries_in self.now.entries.now) self.now.asked point status }
    {
        if let Some(magnitude) = own {
            return PointValue {
                magnitude,
                origin: Origin::Measured,
            };
        }
        if status > 0 {
            return PointValue {
                magnitude: 0,
                origin: Origin::ZeroByStatus,
            };
        }
        let weeks = self.earlier_weeks(point as u64);
        match weeks.mean() {
            Some(magnitude) => PointValue {
                magnitude,
                origin: Origin::Weeks(weeks.count),
            },
            None => PointValue {
                magnitude: 0,
                origin: Origin::ZeroForLack,
            },
        }
    }

    // The values of all points, producers first, each by its status; what stands at places of no point is free. An array of 64, since there is no heap:
    // how many of its places are points' the statuses tell.
    pub fn values(&self, statuses: &[u8]) -> [PointValue; 64]
        requires { length statuses.now ≤ 64 }
        ensures { AllOf (entries_in self.now.entries.now) self.now.asked statuses.now result }
    {
        let own = self.own_readings();
        let filler = PointValue {
            magnitude: 0,
            origin: Origin::ZeroForLack,
        };
        let mut values = [filler; 64];
        // by number: a point's status, reading and value are found by it
        for (point, status) in statuses.iter().enumerate() {
            values[point] = self.look_up(point, *status, own[point]);
        }
        values
    }
}
