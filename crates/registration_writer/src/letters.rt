// The lines of a registration, put on a page one after the other.
ghost use Rattle.std.specs.Prelude.{◌≡◌, ℕ, ◌+◌, ◌*◌, ◌≤◌, ◌<◌, length};
ghost use Rattle.lists.specs.Pages.{Room, Added};
ghost use Rattle.registration.specs.Rules.{points, count_at};
ghost use Rattle.registration_text.specs.Lines.{line_g, line_o};
ghost use Rattle.registration_text.specs.Writer.{lines_d, lines_o, text_of};

use lists::Page;
use registration::Registration;
use registration_text::{CONSUMER, FIXED, FIXED_BYTES, GROUP, PAIR, PAIR_BYTES, PRODUCER};

// The bytes of the line of the group; a constant takes no call, so that the widths are added here.
const GROUP_BYTES: usize = 2 + GROUP.widths[0] + GROUP.widths[1] + GROUP.widths[2];

// The bytes of a producer's line.
const PRODUCER_BYTES: usize = 2 + PRODUCER.widths[0] + PRODUCER.widths[1];

// The bytes of a consumer's line without its pairs.
const CONSUMER_BYTES: usize = FIXED_BYTES + 1;

// How many bytes the text of a registration takes.
pub fn size(registration: &Registration) -> usize
    requires { points registration.now ≤ 64 }
    ensures { result ≡ length (text_of registration.now) }
{
    let consumers: usize = registration.counts[..registration.consumers]
        .iter()
        .map(|count| CONSUMER_BYTES + PAIR_BYTES * usize::from(*count))
        .sum();
    GROUP_BYTES + PRODUCER_BYTES * registration.producers + consumers
}

// Puts the G line.
pub fn put_group(page: &mut Page<u8>, registration: &Registration)
    requires { Room 12 page.old }
    ensures { Added (line_g registration.now) page.old page.new }
{
    let numbers = [
        registration.producers as u64,
        registration.consumers as u64,
        u64::from(registration.iteration),
    ];
    GROUP.put(page, numbers);
}

// Puts the D lines of all producers.
pub fn put_producers(page: &mut Page<u8>, registration: &Registration)
    requires { (registration.now.producers ≤ 64) × Room (23 * registration.now.producers) page.old }
    ensures { Added (lines_d registration.now 0 registration.now.producers) page.old page.new }
{
    let codes = &registration.codes[..registration.producers];
    for (code, status) in codes.iter().zip(&registration.statuses) {
        PRODUCER.put(page, [*code, u64::from(*status)]);
    }
}

// Puts a consumer's O line.
fn put_consumer(page: &mut Page<u8>, registration: &Registration, consumer: usize)
    requires among { (points registration.now ≤ 64) × (consumer < registration.now.consumers) }
    requires count_bound { count_at registration.now consumer ≤ 5 }
    requires room { Room (25 + 10 * count_at registration.now consumer) page.old }
    ensures { Added (line_o registration.now consumer) page.old page.new }
{
    let point = registration.producers + consumer;
    let status = registration.statuses[point];
    let count = registration.counts[consumer];
    page.put(&[CONSUMER]);
    lines::put_columns(
        page,
        &FIXED,
        &[
            registration.codes[point],
            u64::from(status),
            u64::from(count),
        ],
    );
    for pair in &registration.pairs(consumer)[..usize::from(count)] {
        lines::put_columns(page, &PAIR, &[pair.source, pair.key]);
    }
    page.put(&[lines::LINE_FEED]);
}

// Puts the O lines of all consumers, by their numbers: code and status stand at a consumer's point, its count and pairs at its number.
pub fn put_consumers(page: &mut Page<u8>, registration: &Registration)
    requires points_bound { points registration.now ≤ 64 }
    requires by_index { (consumer : ℕ) → consumer < registration.now.consumers → count_at registration.now consumer ≤ 5 }
    requires room { Room (length (lines_o registration.now 0 registration.now.consumers)) page.old }
    ensures { Added (lines_o registration.now 0 registration.now.consumers) page.old page.new }
{
    for consumer in 0..registration.consumers {
        put_consumer(page, registration, consumer);
    }
}
