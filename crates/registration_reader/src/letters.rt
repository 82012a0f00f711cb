// The lines of the letters G, D and O: each is read into the registration, or refused.
ghost use Rattle.std.specs.Prelude.{◌≡◌, ℕ, ◌+◌, ◌*◌, ◌≤◌, ◌<◌, length, get_or, OnOk, OnErr, Ok, Some, IfSome, MatchOption};
ghost use Rattle.std.specs.Result.{result_and};
ghost use Rattle.columns.specs.Fields.{nth, numbers_in};
ghost use Rattle.lines.specs.Lines.{line_in};
ghost use Rattle.registration.specs.Rules.{no_pair, source_in, key_in};
ghost use Rattle.registration_text.specs.Lines.{letter_g, letter_d, widths_g, widths_d, widths_of_pairs, pairs_from};
ghost use Rattle.registration_text.specs.Reader.{fixed_in, rest_in, verdict_g, verdict_d, verdict_o, with_counts, with_point, with_count, with_pairs, with_consumer};

use answers::Refusal;
use registration::{Pair, Registration};
use registration_text::{CONSUMER, FIXED, FIXED_BYTES, GROUP, PAIR, PAIR_BYTES, PRODUCER};

// Reads a G line: a registration with its counts, and no points yet.
#[tactic(auto, using(answers::proofs::Refusals::refusals), unfolding(registration_text::specs::Reader::verdict_g))]
pub fn read_group(line: &[u8]) -> Result<Registration, Refusal>
    ensures { let numbers = line_in letter_g widths_g line.now in result ≡ result_and (verdict_g numbers) (Ok (with_counts (nth 0 numbers) (nth 1 numbers) (nth 2 numbers))) }
{
    let [producers, consumers, iteration] = GROUP.read(line).ok_or(Refusal::NotInColumns)?;
    if !registration::point_counts_right(producers as usize, consumers as usize) {
        return Err(Refusal::CountOutside);
    }
    if iteration > u64::from(Registration::ITERATION_MOST) {
        return Err(Refusal::StatusOrIterationAbove);
    }
    Ok(Registration {
        producers: producers as usize,
        consumers: consumers as usize,
        iteration: iteration as u8,
        ..Registration::empty()
    })
}

// Puts code and status of a point into the registration.
#[tactic(auto, unfolding(registration_text::specs::Reader::with_point))]
fn put_point(registration: &mut Registration, point: usize, code: u64, status: u8)
    requires { point < 64 }
    ensures { registration.new ≡ with_point registration.old point code status }
{
    registration.codes[point] = code;
    registration.statuses[point] = status;
}

// Reads a producer's D line into the registration, which a refused line leaves as it was.
#[tactic(auto, using(answers::proofs::Refusals::refusals), unfolding(registration_text::specs::Reader::verdict_d))]
pub fn read_producer(
    line: &[u8],
    registration: &mut Registration,
    producer: usize,
) -> Result<(), Refusal>
    requires { producer < 64 }
    ensures verdict { result ≡ verdict_d (line_in letter_d widths_d line.now) }
    ensures stored { let numbers = line_in letter_d widths_d line.now in OnOk result (registration.new ≡ with_point registration.old producer (nth 0 numbers) (nth 1 numbers)) }
    ensures unaltered { OnErr result (registration.new ≡ registration.old) }
{
    let [code, status] = PRODUCER.read(line).ok_or(Refusal::NotInColumns)?;
    if status > u64::from(Registration::STATUS_MOST) {
        return Err(Refusal::StatusOrIterationAbove);
    }
    if !registration::code_true(code) {
        return Err(Refusal::CodeFalse);
    }
    put_point(registration, producer, code, status as u8);
    Ok(())
}

// The numbers of an O line's fixed part: code, status, count. What frames the line is judged in two parts, here its length so far and its letter, in
// `read_rest` its end, and not by `lines::is_framed`: how long the line is, its count says.
#[tactic(auto, unfolding(registration_text::specs::Reader::fixed_in))]
fn read_fixed(line: &[u8]) -> Option<[u64; 3]>
    ensures { result ≡ fixed_in line.now }
{
    if line.len() < FIXED_BYTES || line[0] != CONSUMER {
        return None;
    }
    lines::read_columns(&line[1..], &FIXED)
}

// The pairs in the columns at the front of the bytes, so many of them, and pairs of zeros after them: there is no heap for a list of those alone, and the
// count stands beside the pairs.
fn read_pairs(bytes: &[u8], count: usize) -> Option<[Pair; 5]>
    requires count_bound { count ≤ 5 }
    requires count_in_bounds { 10 * count ≤ length bytes.now }
    ensures numbers { let numbers = numbers_in (widths_of_pairs count) bytes.now in MatchOption result (numbers ≡ None) (λ pairs. numbers ≡ Some (pairs_from (source_in pairs) (key_in pairs) 0 count)) }
    ensures after { IfSome result (λ pairs. (k : ℕ) → count ≤ k → k < 5 → get_or pairs k no_pair ≡ no_pair) }
{
    let mut pairs = [Pair::NONE; 5];
    let mut rest = bytes;
    for pair in pairs[..count].iter_mut() {
        let [source, key] = lines::read_columns(rest, &PAIR)?;
        *pair = Pair { source, key };
        rest = &rest[PAIR_BYTES..];
    }
    Some(pairs)
}

// The pairs of an O line's rest, after the fixed part: so many of them, with the count beside them as `read_pairs` has it, and nothing else before the
// line's end.
#[tactic(auto, using(lines::proofs::Parts::tail_part), unfolding(registration_text::specs::Reader::rest_in))]
fn read_rest(line: &[u8], count: usize) -> Option<[Pair; 5]>
    requires { count ≤ 5 }
    ensures numbers { let numbers = rest_in count line.now in MatchOption result (numbers ≡ None) (λ pairs. numbers ≡ Some (pairs_from (source_in pairs) (key_in pairs) 0 count)) }
    ensures after { IfSome result (λ pairs. (k : ℕ) → count ≤ k → k < 5 → get_or pairs k no_pair ≡ no_pair) }
{
    let end = FIXED_BYTES + PAIR_BYTES * count;
    if line.len() != end + 1 || line[end] != lines::LINE_FEED {
        return None;
    }
    read_pairs(&line[FIXED_BYTES..], count)
}

// Puts how many producers a consumer names into the registration, and its pairs by priority: by their places, since a chain over both arrays would first
// cut each of them from the consumer's first place on, and pair up three iterators.
fn put_pairs(registration: &mut Registration, consumer: usize, pairs: &[Pair])
    requires consumer_bound { (consumer < 64) × (length pairs.now ≤ 5) }
    requires by_index { (k : ℕ) → k < length pairs.now → (source_in pairs.now k < 256) × (key_in pairs.now k < 65536) }
    ensures { registration.new ≡ with_pairs (with_count registration.old consumer (length pairs.now)) consumer (source_in pairs.now) (key_in pairs.now) 0 (length pairs.now) }
{
    registration.counts[consumer] = pairs.len() as u8;
    let first = Registration::SOURCES * consumer;
    for (priority, pair) in pairs.iter().enumerate() {
        registration.sources[first + priority] = pair.source as u8;
        registration.keys[first + priority] = pair.key as u16;
    }
}

// Reads a consumer's O line into the registration, which a refused line leaves as it was.
#[tactic(auto, using(answers::proofs::Refusals::refusals), unfolding(registration_text::specs::Reader::verdict_o))]
pub fn read_consumer(
    line: &[u8],
    registration: &mut Registration,
    consumer: usize,
) -> Result<(), Refusal>
    requires { registration.old.producers + consumer < 64 }
    ensures verdict { let fixed = fixed_in line.now in result ≡ verdict_o registration.old.producers fixed (rest_in (nth 2 fixed) line.now) }
    ensures stored { let fixed = fixed_in line.now in OnOk result (registration.new ≡ with_consumer registration.old consumer fixed (rest_in (nth 2 fixed) line.now)) }
    ensures unaltered { OnErr result (registration.new ≡ registration.old) }
{
    let [code, status, number] = read_fixed(line).ok_or(Refusal::NotInColumns)?;
    if !(1..=Registration::SOURCES as u64).contains(&number) {
        return Err(Refusal::CountOutside);
    }
    let count = number as usize;
    let pairs = read_rest(line, count).ok_or(Refusal::NotInColumns)?;
    // a producer's two tests, where this line's order of refusals has them: as a function they would be longer
    if status > u64::from(Registration::STATUS_MOST) {
        return Err(Refusal::StatusOrIterationAbove);
    }
    if !registration::code_true(code) {
        return Err(Refusal::CodeFalse);
    }
    let pairs = &pairs[..count];
    if !registration::pairs_right(pairs, registration.producers) {
        return Err(Refusal::ProducerOrKeyWrong);
    }
    let point = registration.producers + consumer;
    put_point(registration, point, code, status as u8);
    put_pairs(registration, consumer, pairs);
    Ok(())
}
