// The calls that events ask for: 9 for the date, then the call's own order, and the answer written to the front of a buffer.
#![tactic(auto)]

ghost use Rattle.std.specs.Prelude.{◌≡◌, ◌≤◌, length, Some};
ghost use Rattle.std.specs.Result.{result_unwrap_or};
ghost use Rattle.answers.specs.Numbers.{answer_of};
ghost use Rattle.lists.specs.Pages.{Room, Added};
ghost use Rattle.event_reader.specs.declared.Event.TheVariants.{Submission as SubmissionLine, Clear as ClearLine, Evaluation as EvaluationLine};
ghost use Rattle.event_writer.specs.Answers.{line_a, bytes_of_answer, line_r, bytes_of_rounds};
ghost use Rattle.event_calls.specs.Replies.{result_list, call_of, reply_of};
ghost use Rattle.event_calls.specs.Promises.{answer_most, Calls, Evaluated, Replied, Replies};

use answers::Refusal;
use event_reader::{Clear, Evaluation, Event, Submission};
use lists::Page;
use lookup::Asked;
use service::Service;
use values::Measurement;

// The room that an answer is given; no answer is longer, as `event_text` shows.
pub const ANSWER_MOST: usize = 7844;

// Puts the A line of what a call answers: the stamp or the dropped count, 0 where it is refused.
pub fn put_answer(page: &mut Page<u8>, answer: Result<u64, Refusal>)
    requires { Room bytes_of_answer page.old }
    ensures { Added (line_a (answer_of answer) (result_unwrap_or answer 0)) page.old page.new }
{
    event_writer::ANSWER.put(page, [answers::answer(&answer), answer.unwrap_or(0)])
}

// Puts the R line of what an evaluation answers: the round count, 0 where it is refused. It is a function beside `put_answer`, since format and kind of
// number differ, and each is one line.
fn put_rounds(page: &mut Page<u8>, answer: Result<usize, Refusal>)
    requires { Room bytes_of_rounds page.old }
    ensures { Added (line_r (answer_of answer) (result_unwrap_or answer 0)) page.old page.new }
{
    event_writer::ROUNDS.put(page, [answers::answer(&answer), answer.unwrap_or(0) as u64])
}

// Makes the call of an M line. Record and journal come apart here and below, as the service's calls take them; the measurement, and below what an evaluation
// asks, are made by hand: both types are of other crates, and in `event_reader` a TryFrom would make the reader of lines know of calls.
fn submission(service: &mut Service, journal: &mut [u64], asked: Submission) -> Result<u64, Refusal>
    ensures { Calls service.old journal.old (call_of (Some (SubmissionLine asked))) service.new result journal.new }
{
    let day = calendar::day_of(asked.date).ok_or(Refusal::NoSuchDay)?;
    let measurement = Measurement {
        code: asked.code,
        day,
        quarter: asked.quarter,
        value: asked.value,
    };
    service.submit(journal, asked.clock, measurement)
}

// Makes the call of a C line.
fn clear(service: &mut Service, journal: &mut [u64], asked: Clear) -> Result<u64, Refusal>
    ensures { Calls service.old journal.old (call_of (Some (ClearLine asked))) service.new result journal.new }
{
    let day = calendar::day_of(asked.date).ok_or(Refusal::NoSuchDay)?;
    let dropped = service.clear(journal, day, asked.stamp)?;
    Ok(dropped as u64)
}

// Makes the call of an E line, which alters neither record nor journal; an accepted one leaves its result in `numbers`.
fn evaluation(
    service: &Service,
    journal: &[u64],
    asked: Evaluation,
    numbers: &mut [u64],
) -> Result<usize, Refusal>
    requires { numbers.old ≡ result_list }
    ensures { Evaluated service.now journal.now (call_of (Some (EvaluationLine asked))) result numbers.new }
{
    let day = calendar::day_of(asked.date).ok_or(Refusal::NoSuchDay)?;
    let asked = Asked {
        day,
        quarter: asked.quarter,
        until: asked.until,
    };
    service.evaluate(journal, asked, numbers)
}

// Answers an E line.
fn put_evaluation(service: &Service, journal: &[u64], asked: Evaluation, page: &mut Page<u8>)
    requires { Room answer_most page.old }
    ensures { Replied (reply_of service.now journal.now (Some (EvaluationLine asked))) service.now journal.now page.old page.new }
{
    // as long as the longest result, since there is no heap
    let mut numbers = [0; evaluation::RESULT_MOST];
    let rounds = evaluation(service, journal, asked, &mut numbers);
    put_rounds(page, rounds);
    if rounds.is_ok() {
        event_writer::put_result(page, &service.registration, &numbers);
    }
}

// Answers an event on a page: makes the call that it asks for on record and journal.
fn put_reply(service: &mut Service, journal: &mut [u64], event: Option<Event>, page: &mut Page<u8>)
    requires { Room answer_most page.old }
    ensures { Replied (reply_of service.old journal.old event) service.new journal.new page.old page.new }
{
    match event {
        None => put_answer(page, Err(Refusal::NotInColumns)),
        Some(Event::Submission(asked)) => put_answer(page, submission(service, journal, asked)),
        Some(Event::Clear(asked)) => put_answer(page, clear(service, journal, asked)),
        Some(Event::Evaluation(asked)) => put_evaluation(service, journal, asked, page),
    }
}

// Answers an event: makes the call that it asks for on record and journal, and writes its answer to the front of a buffer. Returns how many bytes it has,
// as the library's `Read::read` does: what the rest of the buffer holds is promised too, which a slice of the answer would leave open.
pub fn reply(
    service: &mut Service,
    journal: &mut [u64],
    event: Option<Event>,
    out: &mut [u8],
) -> usize
    requires { answer_most ≤ length out.old }
    ensures { Replies (reply_of service.old journal.old event) out.old service.new journal.new result out.new }
{
    let mut page = Page { space: out, end: 0 };
    put_reply(service, journal, event, &mut page);
    page.end
}
