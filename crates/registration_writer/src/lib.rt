// Writes a registration's text.
#![tactic(auto)]

ghost use Rattle.registration_text.specs.Writer.{Wrote};

use answers::Refusal;
use lists::Page;
use registration::Registration;

mod letters;

// Writes a registration's text to the front of a buffer, and gives the number of its bytes, as the library's `Read::read` does: what the rest of the
// buffer holds is promised too, which a slice of the text would leave open.
pub fn write(registration: &Registration, out: &mut [u8]) -> Result<usize, Refusal>
    ensures { Wrote registration.now out.old out.new result }
{
    registration_damage::soundness(registration)?;
    let size = letters::size(registration);
    if out.len() < size {
        return Err(Refusal::TooShort);
    }
    let mut page = Page { space: out, end: 0 };
    letters::put_group(&mut page, registration);
    letters::put_producers(&mut page, registration);
    letters::put_consumers(&mut page, registration);
    Ok(page.end)
}
