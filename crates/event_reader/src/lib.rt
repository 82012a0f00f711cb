// The lines of events: M, a submission; C, a clear; E, an evaluation. Each line goes to the reader for its letter.
#![tactic(auto)]

ghost use Rattle.std.specs.Prelude.{◌≡◌};
ghost use Rattle.event_reader.specs.Events.{submission_in, clear_in, evaluation_in, event_in};

use lines::Format;

// A submission, as an M line asks for it: the date stands as it was read.
#[derive(Clone, Copy)]
pub struct Submission {
    pub clock: u64,
    pub code: u64,
    pub date: u64,
    pub quarter: u64,
    pub value: i64,
}

// A clear, as a C line asks for it.
#[derive(Clone, Copy)]
pub struct Clear {
    pub date: u64,
    pub stamp: u64,
}

// An evaluation as of the stamp T, `until`, as an E line asks for it.
#[derive(Clone, Copy)]
pub struct Evaluation {
    pub date: u64,
    pub quarter: u64,
    pub until: u64,
}

// What a line asks for.
#[derive(Clone, Copy)]
pub enum Event {
    Submission(Submission),
    Clear(Clear),
    Evaluation(Evaluation),
}

// The widths of an M line's clock, code, date and quarter.
const WIDTHS_M: [usize; 4] = [13, 19, 9, 4];

// The width of its value, the last column.
const WIDTH_OF_VALUE: usize = 10;

// Where the value's column begins, after the letter and the others; a constant takes no call, so that the widths are added here.
const VALUE_START: usize = 1 + WIDTHS_M[0] + WIDTHS_M[1] + WIDTHS_M[2] + WIDTHS_M[3];

// Where it ends: the bytes of an M line before its LF.
const VALUE_END: usize = VALUE_START + WIDTH_OF_VALUE;

// A C line's date and stamp.
const CLEAR: Format<2> = Format {
    letter: b'C',
    widths: [9, 13],
};

// An E line's date, quarter and T.
const EVALUATION: Format<3> = Format {
    letter: b'E',
    widths: [9, 4, 13],
};

// Reads an M line, which is no `Format`: its last column is signed.
#[tactic(auto, unfolding(crate::specs::Events::submission_in))]
fn read_submission(line: &[u8]) -> Option<Event>
    ensures { result ≡ submission_in line.now }
{
    if !lines::is_framed(line, b'M', VALUE_END - 1) {
        return None;
    }
    let [clock, code, date, quarter] = lines::read_columns(&line[1..], &WIDTHS_M)?;
    let value = columns::read_signed(&line[VALUE_START..VALUE_END])?;
    Some(Event::Submission(Submission {
        clock,
        code,
        date,
        quarter,
        value,
    }))
}

// Reads a C line.
#[tactic(auto, unfolding(crate::specs::Events::clear_in))]
fn read_clear(line: &[u8]) -> Option<Event>
    ensures { result ≡ clear_in line.now }
{
    let [date, stamp] = CLEAR.read(line)?;
    Some(Event::Clear(Clear { date, stamp }))
}

// Reads an E line.
#[tactic(auto, unfolding(crate::specs::Events::evaluation_in))]
fn read_evaluation(line: &[u8]) -> Option<Event>
    ensures { result ≡ evaluation_in line.now }
{
    let [date, quarter, until] = EVALUATION.read(line)?;
    Some(Event::Evaluation(Evaluation {
        date,
        quarter,
        until,
    }))
}

// Reads a line of an event by its letter; a line of any other letter, or with none, asks for nothing.
#[tactic(auto, unfolding(crate::specs::Events::event_in))]
pub fn read(line: &[u8]) -> Option<Event>
    ensures { result ≡ event_in line.now }
{
    match line.first()? {
        b'M' => read_submission(line),
        b'C' => read_clear(line),
        b'E' => read_evaluation(line),
        _ => None,
    }
}
