// The static library: the calls of a service, the text of a registration, and days, dates and changeover days, for C and Rust. Answers are records of
// numbers, and no call asks anything of its arguments.
#![tactic(auto)]

ghost use Rattle.std.specs.Prelude.{◌≡◌};
ghost use Rattle.calendar.specs.Dates.{day_of, date_of};
ghost use Rattle.calendar.specs.Quarters.{quarters_of};
ghost use Rattle.calendar.specs.Changeovers.{changeover_at};
ghost use Rattle.share_c.specs.Promises.{read_answer, WriteLeaves, fresh_answer, SubmitLeaves, ClearLeaves, EvaluateLeaves, day_answer};

use answers::Refusal;
use lookup::Asked;
use registration::Registration;
use service::Service;
use values::Measurement;

// C has no Result, no Option and no generic types, so that each answer is a record of its own, in which the answer's number stands beside what it gives,
// with zeros where the call is refused; a date or a number of quarters is 0 where there is no such day. Six are made where their call is, and `Dated`
// in `day_answer` for two calls: a From for each would be longer. Records come by value where a call alters none, and day, quarter and stamp as numbers, as
// share.h has them.

// The answer of `share_read`: the registration, zeros where it is refused.
#[repr(C)]
#[derive(Clone, Copy)]
pub struct Read {
    pub answer: u64,
    pub registration: Registration,
}

// The answer of `share_write`: how many bytes were written.
#[repr(C)]
#[derive(Clone, Copy)]
pub struct Written {
    pub answer: u64,
    pub bytes: usize,
}

// The answer of `share_fresh`: the record, zeros where it is refused.
#[repr(C)]
#[derive(Clone, Copy)]
pub struct Fresh {
    pub answer: u64,
    pub service: Service,
}

// The answer of `share_submit`: the stamp of the reading.
#[repr(C)]
#[derive(Clone, Copy)]
pub struct Submitted {
    pub answer: u64,
    pub stamp: u64,
}

// The answer of `share_clear`: how many entries were dropped.
#[repr(C)]
#[derive(Clone, Copy)]
pub struct Cleared {
    pub answer: u64,
    pub dropped: usize,
}

// The answer of `share_evaluate`: the round count.
#[repr(C)]
#[derive(Clone, Copy)]
pub struct Evaluated {
    pub answer: u64,
    pub rounds: usize,
}

// The answer of `share_day` and of `share_changeover`: the day's number.
#[repr(C)]
#[derive(Clone, Copy)]
pub struct Dated {
    pub answer: u64,
    pub day: u64,
}

// Reads a registration from its text.
#[unsafe(no_mangle)]
pub extern "C" fn share_read(text: &[u8]) -> Read
    ensures { result ≡ read_answer text.now }
{
    let read = registration_reader::read(text);
    Read {
        answer: answers::answer(&read),
        registration: read.unwrap_or(Registration::empty()),
    }
}

// Writes a registration's text to the front of a buffer.
#[unsafe(no_mangle)]
pub extern "C" fn share_write(registration: Registration, out: &mut [u8]) -> Written
    ensures { WriteLeaves registration out.old out.new result }
{
    let written = registration_writer::write(&registration, out);
    Written {
        answer: answers::answer(&written),
        bytes: written.unwrap_or(0),
    }
}

// A service made from a registration alone.
#[unsafe(no_mangle)]
pub extern "C" fn share_fresh(registration: Registration) -> Fresh
    ensures { result ≡ fresh_answer registration }
{
    let fresh = Service::fresh(registration);
    Fresh {
        answer: answers::answer(&fresh),
        service: fresh.unwrap_or(Service::empty()),
    }
}

// A submission: the record is lent, and altered in place.
#[unsafe(no_mangle)]
pub extern "C" fn share_submit(
    service: &mut Service,
    journal: &mut [u64],
    clock: u64,
    measurement: Measurement,
) -> Submitted
    ensures { SubmitLeaves service.old journal.old clock measurement service.new result journal.new }
{
    let submitted = service.submit(journal, clock, measurement);
    Submitted {
        answer: answers::answer(&submitted),
        stamp: submitted.unwrap_or(0),
    }
}

// A clear: the record is lent, and altered in place.
#[unsafe(no_mangle)]
pub extern "C" fn share_clear(
    service: &mut Service,
    journal: &mut [u64],
    day: u64,
    stamp: u64,
) -> Cleared
    ensures { ClearLeaves service.old journal.old day stamp service.new result journal.new }
{
    let cleared = service.clear(journal, day, stamp);
    Cleared {
        answer: answers::answer(&cleared),
        dropped: cleared.unwrap_or(0),
    }
}

// The evaluation of a quarter hour as of a stamp.
#[unsafe(no_mangle)]
pub extern "C" fn share_evaluate(
    service: Service,
    journal: &[u64],
    day: u64,
    quarter: u64,
    until: u64,
    list: &mut [u64],
) -> Evaluated
    ensures { EvaluateLeaves service journal.now day quarter until list.old result list.new }
{
    let asked = Asked {
        day,
        quarter,
        until,
    };
    let evaluated = service.evaluate(journal, asked, list);
    Evaluated {
        answer: answers::answer(&evaluated),
        rounds: evaluated.unwrap_or(0),
    }
}

// A day with its answer as a number: 9 and 0 where there is none.
fn day_answer(found: Option<u64>) -> Dated
    ensures { result ≡ day_answer found }
{
    let day = found.ok_or(Refusal::NoSuchDay);
    Dated {
        answer: answers::answer(&day),
        day: day.unwrap_or(0),
    }
}

// The day of a date YYYYMMDD.
#[unsafe(no_mangle)]
pub extern "C" fn share_day(date: u64) -> Dated
    ensures { result ≡ day_answer (day_of date) }
{
    day_answer(calendar::day_of(date))
}

// The day at a place of the table of changeover days; places count from 0, March stands at the even ones and October at the odd ones.
#[unsafe(no_mangle)]
pub extern "C" fn share_changeover(place: u64) -> Dated
    ensures { result ≡ day_answer (changeover_at place) }
{
    day_answer(calendar::changeover_at(place))
}

// The date YYYYMMDD of a day, 0 where the calendar has no such day.
#[tactic(auto, unfolding(calendar::specs::Dates::date_of))]
#[unsafe(no_mangle)]
pub extern "C" fn share_date(day: u64) -> u64
    ensures { result ≡ date_of day }
{
    calendar::date_of(day).unwrap_or(0)
}

// How many quarter hours a day has, 0 where the calendar has no such day.
#[tactic(auto, unfolding(calendar::specs::Quarters::quarters_of))]
#[unsafe(no_mangle)]
pub extern "C" fn share_quarters(day: u64) -> u64
    ensures { result ≡ quarters_of day }
{
    calendar::quarters(day).unwrap_or(0)
}
