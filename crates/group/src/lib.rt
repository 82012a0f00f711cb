// A group as its registration, its numbers and a journal hold it: when it is damaged, and the tests of each call, in the order of its refusals.
#![tactic(auto)]

ghost use Rattle.std.specs.Prelude.{◌≡◌, ◌≤◌, ◌*◌, cond, not, ◌&&◌, length, nat_abs, leb, eqb};
ghost use Rattle.std.specs.Result.{result_and};
ghost use Rattle.calendar.specs.Dates.{last_day};
ghost use Rattle.journal.specs.Stored.{entries_in};
ghost use Rattle.points.specs.Points.{codes_of, index_of, has, sign_suits};
ghost use Rattle.registration.specs.Rules.{points};
ghost use Rattle.journal.specs.Damage.{Right};
ghost use Rattle.journal.specs.Entries.{readings_at};
ghost use Rattle.journal.specs.Readings.{shown};
ghost use Rattle.values.specs.Values.{magnitude_most};
ghost use Rattle.group.specs.Held.{held};
ghost use Rattle.group.specs.Refusals.{damaged, full, earliest, submission_verdict, clear_verdict, evaluation_verdict};
ghost use Rattle.group.specs.Stamps.{stamp_most};
ghost use Rattle.group.specs.Working.{damage_verdict, looked_of, repeated};

use answers::Refusal;
use journal::Entry;
use lookup::Asked;
use registration::Registration;
use values::Measurement;

// The greatest stamp and clock.
pub const STAMP_MOST: u64 = 999999999999;

// How many days before an evaluated one must still be kept, once days have been cleared: those of the earlier weeks.
pub const DAYS_BEFORE: u64 = lookup::EARLIER_DAYS;

// What is kept of a group beside its registration and its journal: kept stamp P, kept day K, and how many entries the journal has.
#[repr(C)]
#[derive(Clone, Copy, Default)]
pub struct Numbers {
    pub kept_stamp: u64,
    pub kept_day: u64,
    pub entries: usize,
}

// A group: its registration, the last stamp given, its numbers, and the journal with its entries. It may be damaged, so that the journal holds so many
// entries is asked for where they are read.
#[derive(Clone, Copy)]
pub struct Group<'a> {
    pub registration: &'a Registration,
    pub last: u64,
    pub numbers: Numbers,
    pub journal: &'a [u64],
}

// What an accepted submission comes to: it repeats the entry shown, or needs this entry.
#[derive(Clone, Copy)]
pub enum Looked {
    Repeat(Entry),
    New(Entry),
}

impl<'a> Group<'a> {
    // The entries of the journal, each as its three numbers.
    fn entries(&self) -> &[[u64; 3]]
        requires { 3 * self.now.numbers.entries ≤ length self.now.journal.now }
        ensures { entries_in result.now ≡ (held self.now).entries }
    {
        journal::entries(self.journal, self.numbers.entries)
    }

    // Whether registration, record or journal is damaged.
    #[tactic(auto, using(crate::proofs::Undamaged::few, journal::proofs::Stored::length_entries, lists::proofs::TableLaws::length_table), unfolding(crate::specs::Refusals::damaged))]
    pub fn damaged(&self) -> bool
        ensures { result ≡ damaged self.now.last (held self.now) }
    {
        let Numbers {
            kept_stamp,
            kept_day,
            entries,
        } = self.numbers;
        registration_damage::damaged(self.registration)
            || self.last < kept_stamp
            || STAMP_MOST < self.last
            || calendar::LAST_DAY < kept_day
            || self.journal.len() / journal::ENTRY < entries
            || !journal::right(
                self.entries(),
                self.registration.points() as u64,
                kept_day,
                self.last,
            )
    }

    // A damaged group is refused.
    #[tactic(auto, using(answers::proofs::Refusals::order), unfolding(crate::specs::Working::damage_verdict))]
    fn sound(&self) -> Result<(), Refusal>
        ensures { result ≡ damage_verdict self.now.last (held self.now) }
    {
        if self.damaged() {
            return Err(Refusal::Damaged);
        }
        Ok(())
    }

    // The tests of a submission, and what it comes to if it passes them.
    #[tactic(auto, using(crate::proofs::Tests::tests_of_submission, crate::proofs::Looking::looking), unfolding(crate::specs::Refusals::submission_verdict))]
    pub fn look(&self, clock: u64, measurement: Measurement) -> Result<Looked, Refusal>
        ensures { result ≡ result_and (submission_verdict self.now.last (held self.now) clock measurement) (Ok (looked_of self.now.last (held self.now) clock measurement)) }
    {
        self.sound()?;
        let Measurement {
            code,
            day,
            quarter,
            value,
        } = measurement;
        let point = find(self.registration, code).ok_or(Refusal::CodeNotInGroup)?;
        if !calendar::exists(day, quarter) {
            return Err(Refusal::NoSuchDay);
        }
        if day < self.numbers.kept_day {
            return Err(Refusal::DayCleared);
        }
        if !self.suits(value, point) {
            return Err(Refusal::ValueWrong);
        }
        if !self.clock_right(clock) {
            return Err(Refusal::ClockOutside);
        }
        let new = Entry {
            stamp: clock.max(self.last + 1),
            place: journal::place(point as u64, day, quarter),
            stored: value.unsigned_abs(),
        };
        match self.repeated(new.place, new.stored) {
            Some(stamp) => Ok(Looked::Repeat(Entry { stamp, ..new })),
            None if self.full() => Err(Refusal::JournalFull),
            None => Ok(Looked::New(new)),
        }
    }

    // The stamp of the reading that a place shows, where that has this value.
    fn repeated(&self, place: u64, stored: u64) -> Option<u64>
        requires { (3 * self.now.numbers.entries ≤ length self.now.journal.now) × Right (held self.now).entries }
        ensures { result ≡ repeated (shown self.now.last (readings_at (held self.now).entries place)) stored }
    {
        journal::shown(self.entries(), place, self.last)
            .filter(|before| before.stored == stored)
            .map(|before| before.stamp)
    }

    // Whether a value suits a point, by its sign and its magnitude.
    fn suits(&self, value: i64, point: usize) -> bool
        ensures { result ≡ (sign_suits self.now.registration.now.producers point value && leb (nat_abs value) magnitude_most) }
    {
        points::sign_suits(value, point, self.registration.producers)
            && value.unsigned_abs() <= values::MAGNITUDE_MOST
    }

    // Whether a new stamp can be given at this clock.
    fn clock_right(&self, clock: u64) -> bool
        ensures { result ≡ (leb clock stamp_most && not (eqb self.now.last stamp_most)) }
    {
        clock <= STAMP_MOST && self.last != STAMP_MOST
    }

    // Whether the journal has no room for one more entry: fewer numbers are left than one has.
    #[tactic(auto, using(journal::proofs::Stored::length_entries))]
    fn full(&self) -> bool
        ensures { result ≡ full (held self.now) }
    {
        self.journal.len() / journal::ENTRY <= self.numbers.entries
    }

    // Whether what was shown as of a stamp is kept: the stamp is not below the kept one, and not above the last.
    fn keeps(&self, stamp: u64) -> bool
        ensures { result ≡ (leb self.now.numbers.kept_stamp stamp && leb stamp self.now.last) }
    {
        (self.numbers.kept_stamp..=self.last).contains(&stamp)
    }

    // The tests of a clear.
    #[tactic(auto, using(crate::proofs::Tests::tests), unfolding(crate::specs::Refusals::clear_verdict))]
    pub fn clear_verdict(&self, day: u64, stamp: u64) -> Result<(), Refusal>
        ensures { result ≡ clear_verdict self.now.last (held self.now) day stamp }
    {
        self.sound()?;
        if calendar::LAST_DAY < day {
            return Err(Refusal::NoSuchDay);
        }
        if day < self.numbers.kept_day {
            return Err(Refusal::DayCleared);
        }
        if !self.keeps(stamp) {
            return Err(Refusal::StampOutside);
        }
        Ok(())
    }

    // The tests of an evaluation, whose result is put into the list that is lent.
    #[tactic(auto, using(crate::proofs::Tests::tests, crate::proofs::Tests::kept_day_most, crate::proofs::Tests::few_of), unfolding(crate::specs::Refusals::evaluation_verdict))]
    pub fn evaluation_verdict(&self, asked: Asked, lent: &[u64]) -> Result<(), Refusal>
        ensures { result ≡ evaluation_verdict self.now.last (held self.now) asked.day asked.quarter asked.until lent.now }
    {
        self.sound()?;
        if !calendar::exists(asked.day, asked.quarter) {
            return Err(Refusal::NoSuchDay);
        }
        if asked.day < earliest(self.numbers.kept_day) {
            return Err(Refusal::DayCleared);
        }
        if !self.keeps(asked.until) {
            return Err(Refusal::StampOutside);
        }
        if lent.len() < evaluation::layout_of(self.registration).size {
            return Err(Refusal::TooShort);
        }
        Ok(())
    }
}

// The number of the point with a code, where the group has it.
fn find(registration: &Registration, code: u64) -> Option<usize>
    requires { points registration.now ≤ 64 }
    ensures { result ≡ cond (has code (codes_of registration.now)) (Some (index_of code (codes_of registration.now))) None }
{
    points::find(&registration.codes[..registration.points()], code)
}

// The earliest day that can be evaluated: the four weeks before it are not cleared. Kept day 0 says that no day is, as the record of the C interface has it.
#[tactic(auto, unfolding(crate::specs::Refusals::earliest))]
fn earliest(kept: u64) -> u64
    requires { kept ≤ last_day }
    ensures { result ≡ earliest kept }
{
    match kept {
        0 => 0,
        kept => kept + DAYS_BEFORE,
    }
}
