// The input of program `share`: its registration, its lines, and the answer to each.
#![tactic(auto)]

ghost use Rattle.std.specs.Prelude.{◌≡◌, [], ◌∷◌, ◌≤◌, length, IfOk};
ghost use Rattle.answers.specs.Numbers.{number_of};
ghost use Rattle.event_writer.specs.Answers.{line_a, bytes_of_answer};
ghost use Rattle.event_text.specs.Share.{is_event, events_text};
ghost use Rattle.event_text.specs.Promises.{Opens, Answers};

use answers::Refusal;
use lists::Page;
use service::Service;

// The most bytes of an input.
pub const INPUT_MOST: usize = 32768;

// No answer to a line has more bytes than this.
pub const ANSWER_MOST: usize = event_calls::ANSWER_MOST;

// What opening an input gives: a fresh service, and the text from where the events begin.
#[derive(Clone, Copy)]
pub struct Opened<'a> {
    pub service: Service,
    pub events: &'a [u8],
}

// Whether a line that begins with this byte is an event's.
fn begins_event(byte: u8) -> bool
    ensures { result ≡ is_event (byte ∷ []) }
{
    byte == b'M' || byte == b'C' || byte == b'E'
}

// The text of an input from where its events begin: at the first line that begins with M, C or E, or at the input's end. It goes by `split_line`, since the
// text that is left is what is asked for.
fn events(input: &[u8]) -> &[u8]
    ensures { result.now ≡ events_text input.now }
{
    let mut rest = input;
    while let Some(first) = rest.first() {
        if begins_event(*first) {
            return rest;
        }
        rest = lines::split_line(rest).1;
    }
    rest
}

// Opens an input: reads its registration, up to the first line that begins with M, C or E, and makes a fresh service of it.
pub fn open(input: &[u8]) -> Result<Opened, Refusal>
    ensures { Opens input.now result }
{
    if input.len() > INPUT_MOST {
        return Err(Refusal::NotInColumns);
    }
    let events = events(input);
    let registration = registration_reader::read(&input[..input.len() - events.len()])?;
    let service = Service::fresh(registration)?;
    Ok(Opened { service, events })
}

// The A line of a refused opening.
pub fn refusal_line(refusal: Refusal) -> [u8; event_writer::ANSWER_BYTES]
    ensures { (result ≡ line_a (number_of refusal) 0) × (bytes_of_answer ≡ length result) }
{
    let mut line = [0; event_writer::ANSWER_BYTES];
    let mut page = Page {
        space: &mut line,
        end: 0,
    };
    event_calls::put_answer(&mut page, Err(refusal));
    line
}

// Answers a line: makes the call that it asks for on record and journal, and writes its answer to the front of a buffer. Returns how many bytes it has
// and no slice of them, for the reason that stands at `event_calls::reply`.
pub fn answer(
    service: &mut Service,
    journal: &mut [u64],
    line: &[u8],
    out: &mut [u8],
) -> Result<usize, Refusal>
    ensures answers { Answers service.old journal.old line.now out.old service.new result journal.new out.new }
    ensures bytes_in_bounds { IfOk result (λ bytes. bytes ≤ length out.new) }
{
    if out.len() < ANSWER_MOST {
        return Err(Refusal::TooShort);
    }
    let event = event_reader::read(line);
    Ok(event_calls::reply(service, journal, event, out))
}
