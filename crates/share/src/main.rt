// Reads a registration and lines of events from standard input, and writes the answer to each line to standard output.
#![tactic(auto)]

ghost use Rattle.std.specs.Prelude.{◌≡◌, ◌≤◌, ◌<◌, length, take, replicate, IfOk, OnOk, IfSome};
ghost use Rattle.std.specs.Io.KnownBytes.{Appends, Consumes, IsAtEnd};
ghost use Rattle.event_text.specs.Share.{lines_of, answers_to, journal_numbers, share};

use event_text::Opened;
use std::io;
use std::io::{Read, Write};

// The numbers of the journal: three for each of 1000 entries.
const JOURNAL_NUMBERS: usize = 3000;

// Fills a space from the front with what a reader gives, as far as either goes, and says how many bytes that is. The count stands beside the space since
// the input's end may come first, which the library's `read_exact` takes for an error; its `read_to_end` wants the heap.
fn read_full<R: Read>(reader: &mut R, space: &mut [u8]) -> io::Result<usize>
    ensures within { IfOk result (λ count. count ≤ length space.new) }
    ensures bytes { IfOk result (λ count. Consumes (R.remaining reader.old) (R.remaining reader.new) (take count space.new)) }
    ensures whole { IfOk result (λ count. count < length space.new → IsAtEnd (R.remaining reader.new)) }
{
    let mut count = 0;
    while count < space.len() {
        let more = reader.read(&mut space[count..])?;
        if more == 0 {
            return Ok(count);
        }
        count += more;
    }
    Ok(count)
}

// Answers the lines of an input one after the other, each by record and journal as the one before left them.
fn answer_lines<W: Write>(writer: &mut W, opened: Opened) -> io::Result<()>
    ensures { OnOk result (Appends (W.contents writer.old) (W.contents writer.new) (answers_to opened.entry.service (replicate journal_numbers 0) (lines_of opened.entry.events.now))) }
{
    let Opened {
        mut service,
        events,
    } = opened;
    let mut journal = [0; JOURNAL_NUMBERS];
    let mut out = [0; event_text::ANSWER_MOST];
    let mut rest = events;
    // As `for line in events.split_inclusive(..)` its proof did not close: what the prover itself writes for that loop does not check.
    while !rest.is_empty() {
        let (line, later) = lines::split_line(rest);
        let bytes = event_text::answer(&mut service, &mut journal, line, &mut out).unwrap();
        writer.write_all(&out[..bytes])?;
        rest = later;
    }
    Ok(())
}

// Reads all that a reader gives, up to a byte more than an input may have, and writes the answer: for a text that the reader has left, `share` of it.
fn run<R: Read, W: Write>(reader: &mut R, writer: &mut W) -> io::Result<()>
    ensures { OnOk result (IfSome (R.remaining reader.old) (λ text. Appends (W.contents writer.old) (W.contents writer.new) (share text))) }
{
    let mut space = [0; event_text::INPUT_MOST + 1];
    let count = read_full(reader, &mut space)?;
    let input = &space[..count];
    match event_text::open(input) {
        Ok(opened) => answer_lines(writer, opened),
        Err(refusal) => writer.write_all(&event_text::refusal_line(refusal)),
    }
}

// Runs on what the host gives: its standard input and output.
fn main(rt: HostRuntime) -> io::Result<()> {
    run(&mut rt.stdin(), &mut rt.stdout())
}
