// Reads a registration from its text.
#![tactic(auto)]

ghost use Rattle.std.specs.Prelude.{◌≡◌, ◌≤◌};
ghost use Rattle.registration.specs.Rules.{points};
ghost use Rattle.registration_text.specs.Reader.{read_text, verdict_of_all};

use answers::Refusal;
use registration::Registration;

mod letters;

// Judges what was read, and the text that is left after it, by the rules that concern the whole.
#[tactic(auto, using(answers::proofs::Refusals::refusals), unfolding(registration_text::specs::Reader::verdict_of_all))]
fn judge(registration: &Registration, rest: &[u8]) -> Result<(), Refusal>
    requires { points registration.now ≤ 64 }
    ensures { result ≡ verdict_of_all registration.now rest.now }
{
    if !rest.is_empty() {
        return Err(Refusal::NotInColumns);
    }
    if !lists::differ(&registration.codes[..registration.points()]) {
        return Err(Refusal::CodeTwice);
    }
    if !registration.keys_right() {
        return Err(Refusal::KeysAbove);
    }
    Ok(())
}

// Reads a registration from its text. The lines of producers and of consumers have a loop each: one function for both would take the reader of a line, and
// carry that reader's contract as its own, longer than the two loops. Each goes by number, since a line's place in the registration is its number.
pub fn read(text: &[u8]) -> Result<Registration, Refusal>
    ensures { result ≡ read_text text.now }
{
    let (line, mut rest) = lines::split_line(text);
    let mut registration = letters::read_group(line)?;
    for producer in 0..registration.producers {
        let (line, others) = lines::split_line(rest);
        letters::read_producer(line, &mut registration, producer)?;
        rest = others;
    }
    for consumer in 0..registration.consumers {
        let (line, others) = lines::split_line(rest);
        letters::read_consumer(line, &mut registration, consumer)?;
        rest = others;
    }
    judge(&registration, rest)?;
    Ok(registration)
}
