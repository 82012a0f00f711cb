// The service of one group: measurements are submitted, old readings are cleared, quarter hours are evaluated as of any stamp from the kept one on.
#![tactic(auto)]

ghost use Rattle.std.specs.Prelude.{◌≡◌};
ghost use Rattle.group.specs.Held.{held};
ghost use Rattle.service.specs.Record.{zero_service, group_of};
ghost use Rattle.service.specs.Promises.{fresh_of, Submits, Clears, Evaluates};

use answers::Refusal;
use group::{Group, Looked, Numbers};
use lookup::{Asked, Lookup};
use registration::Registration;
use values::Measurement;

// What changes of the record: the last stamp given, which is not one of the group's numbers, and these. It stands so in the C interface.
#[repr(C)]
#[derive(Clone, Copy, Default)]
pub struct State {
    pub last: u64,
    pub numbers: Numbers,
}

// The record of a service. Its journal is not in it; the clock of a submission stands beside its measurement, and a clear's day and stamp are two numbers:
// the C interface has it so.
#[repr(C)]
#[derive(Clone, Copy, Default)]
pub struct Service {
    pub registration: Registration,
    pub state: State,
}

impl Service {
    // The greatest stamp and clock.
    pub const STAMP_MOST: u64 = group::STAMP_MOST;

    // How many days before a day have to be kept for it to be evaluated, once any day is cleared.
    pub const DAYS_BEFORE: u64 = group::DAYS_BEFORE;

    // A record of zeros: beside the derived default, since it promises that these are the zeros of the definition.
    pub fn empty() -> Service
        ensures { result ≡ zero_service }
    {
        Service::default()
    }

    // A service made from a registration alone: no entries, and all stamps and days 0. A damaged registration is refused. It takes it by value, since the
    // record keeps it.
    pub fn fresh(registration: Registration) -> Result<Service, Refusal>
        ensures { result ≡ fresh_of registration }
    {
        registration_damage::soundness(&registration)?;
        Ok(Service {
            registration,
            ..Service::empty()
        })
    }

    // The group that the record and a journal hold.
    fn group<'a>(&'a self, journal: &'a [u64]) -> Group<'a>
        ensures { (held result ≡ group_of self.now journal.now) × (result.last ≡ self.now.state.last) }
    {
        Group {
            registration: &self.registration,
            last: self.state.last,
            numbers: self.state.numbers,
            journal,
        }
    }

    // A submission: returns the stamp of the reading. A refused one alters neither record nor journal.
    pub fn submit(
        &mut self,
        journal: &mut [u64],
        clock: u64,
        measurement: Measurement,
    ) -> Result<u64, Refusal>
        ensures { Submits self.old journal.old clock measurement self.new result journal.new }
    {
        match self.group(journal).look(clock, measurement)? {
            Looked::Repeat(entry) => Ok(entry.stamp),
            Looked::New(entry) => {
                journal::put(journal, self.state.numbers.entries, entry);
                self.state.last = entry.stamp;
                self.state.numbers.entries += 1;
                Ok(entry.stamp)
            }
        }
    }

    // A clear: returns how many entries it dropped. A refused one alters neither record nor journal.
    pub fn clear(&mut self, journal: &mut [u64], day: u64, stamp: u64) -> Result<usize, Refusal>
        ensures { Clears self.old journal.old day stamp self.new result journal.new }
    {
        self.group(journal).clear_verdict(day, stamp)?;
        let points = self.registration.points();
        let count = self.state.numbers.entries;
        let entries = journal_clear::keep(journal, count, points as u64, day, stamp);
        self.state.numbers = Numbers {
            kept_stamp: stamp,
            kept_day: day,
            entries,
        };
        Ok(count - entries)
    }

    // The evaluation of a quarter hour as of a stamp: the result list gets pair shares, remaining withdrawals, remaining supplies, and the origin of each
    // value. Returns the round count.
    pub fn evaluate(
        &self,
        journal: &[u64],
        asked: Asked,
        list: &mut [u64],
    ) -> Result<usize, Refusal>
        ensures { Evaluates self.now journal.now asked list.old result list.new }
    {
        self.group(journal).evaluation_verdict(asked, list)?;
        let entries = journal::entries(journal, self.state.numbers.entries);
        let lookup = Lookup { entries, asked };
        let rounds = evaluation::evaluate(&self.registration, lookup, list);
        Ok(rounds)
    }
}
