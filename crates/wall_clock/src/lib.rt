// The wall-clock starts of a day's quarters: what the clock shows when a quarter begins, and which quarter begins when it shows a time.
#![tactic(auto)]

ghost use Rattle.std.specs.Prelude.{◌≡◌, true, ◌+◌, ◌/◌, ◌%◌, ◌≤◌, ◌<◌};
ghost use Rattle.calendar.specs.Quarters.{quarter_exists};
ghost use Rattle.wall_clock.specs.Starts.{short_start, long_start, quarter_start, first_in, first_at};

// The letter of a start in a doubled hour: A for its first time, B for its second.
#[derive(Clone, Copy)]
pub enum Letter {
    A,
    B,
}

// The wall-clock start of a quarter: minutes from midnight, and the letter if it lies in a doubled hour.
#[derive(Clone, Copy)]
pub struct Start {
    pub minutes: u64,
    pub letter: Option<Letter>,
}

// The minutes of a quarter.
const QUARTER_MINUTES: u64 = 15;

// The minutes of an hour.
const HOUR_MINUTES: u64 = 60;

// The quarters of an hour.
const HOUR_QUARTERS: u64 = 4;

// The minutes that the clock shows in a day.
const DAY_MINUTES: u64 = 1440;

// When the hour begins that is missing on the day with 92 quarters, and comes twice on the day with 100: 02:00, in minutes from midnight.
const HOUR_BEGINS: u64 = 120;

// When it ends: 03:00.
const HOUR_ENDS: u64 = HOUR_BEGINS + HOUR_MINUTES;

// When it has ended for the second time, by what has passed of the day.
const SECOND_ENDS: u64 = HOUR_ENDS + HOUR_MINUTES;

// How many quarters the day has on which clocks are put forward.
const SHORT_DAY: u64 = 92;

// How many the day has on which they are put back.
const LONG_DAY: u64 = 100;

// The start on the day with 92 quarters, when so many minutes of it have passed; no day has more than 1500.
fn short_start(passed: u64) -> Start
    requires { passed ≤ 1500 }
    ensures { result ≡ short_start passed }
{
    let minutes = match passed {
        0..HOUR_BEGINS => passed,
        _ => passed + HOUR_MINUTES,
    };
    Start {
        minutes,
        letter: None,
    }
}

// The start on the day with 100 quarters, when so many minutes of it have passed.
fn long_start(passed: u64) -> Start
    ensures { result ≡ long_start passed }
{
    let (minutes, letter) = match passed {
        0..HOUR_BEGINS => (passed, None),
        HOUR_BEGINS..HOUR_ENDS => (passed, Some(Letter::A)),
        HOUR_ENDS..SECOND_ENDS => (passed - HOUR_MINUTES, Some(Letter::B)),
        _ => (passed - HOUR_MINUTES, None),
    };
    Start { minutes, letter }
}

// The wall-clock start of a quarter that the day has.
#[tactic(auto, using(calendar::proofs::Laws::exists_quarter, calendar::proofs::Laws::exists_day), unfolding(crate::specs::Starts::start_after))]
pub fn quarter_start(day: u64, quarter: u64) -> Start
    requires { quarter_exists day quarter ≡ true }
    ensures { result ≡ quarter_start day quarter }
{
    let passed = QUARTER_MINUTES * (quarter - 1);
    match calendar::quarters(day) {
        Some(SHORT_DAY) => short_start(passed),
        Some(LONG_DAY) => long_start(passed),
        _ => Start {
            minutes: passed,
            letter: None,
        },
    }
}

// The quarter that starts at a time on a day of 96.
fn ordinary_quarter(minutes: u64) -> u64
    ensures { result ≡ minutes / 15 + 1 }
{
    minutes / QUARTER_MINUTES + 1
}

// The first quarter on the day with 92 quarters at a time at which one may start: none in the hour that is missing.
#[tactic(auto, using(crate::proofs::Days::short_before_two, crate::proofs::Days::short_missing, crate::proofs::Days::short_from_three))]
fn short_first(minutes: u64) -> Option<u64>
    requires { (minutes % 15 ≡ 0) × (minutes < 1440) }
    ensures { result ≡ first_in 92 minutes }
{
    let ordinary = ordinary_quarter(minutes);
    match minutes {
        0..HOUR_BEGINS => Some(ordinary),
        HOUR_BEGINS..HOUR_ENDS => None,
        _ => Some(ordinary - HOUR_QUARTERS),
    }
}

// The first quarter on the day with 100 quarters at a time at which one may start: the first of the hour that comes twice.
#[tactic(auto, using(crate::proofs::Days::long_before_three, crate::proofs::Days::long_from_three))]
fn long_first(minutes: u64) -> u64
    requires { (minutes % 15 ≡ 0) × (minutes < 1440) }
    ensures { Some result ≡ first_in 100 minutes }
{
    let ordinary = ordinary_quarter(minutes);
    if minutes < HOUR_ENDS {
        ordinary
    } else {
        ordinary + HOUR_QUARTERS
    }
}

// The first quarter of a day that starts when the clock shows so many minutes, whatever its letter: none in an hour that is missing, at a time at which no
// quarter starts, and on a day outside the calendar.
#[tactic(auto, using(crate::proofs::Days::none_between, crate::proofs::Days::none_after, crate::proofs::Days::none_outside, crate::proofs::Days::ordinary_at, crate::proofs::Days::first_by))]
pub fn first_at(day: u64, minutes: u64) -> Option<u64>
    ensures { result ≡ first_at day minutes }
{
    if minutes % QUARTER_MINUTES != 0 || minutes >= DAY_MINUTES {
        return None;
    }
    match calendar::quarters(day)? {
        SHORT_DAY => short_first(minutes),
        LONG_DAY => Some(long_first(minutes)),
        _ => Some(ordinary_quarter(minutes)),
    }
}
