// The lines of answers, put on a page: A and R with the answer of a call; S, U, V and W with the result of an evaluation.
#![tactic(auto)]

ghost use Rattle.std.specs.Prelude.{ℕ, ◌≡◌, ◌+◌, ◌*◌, ◌≤◌, ◌<◌, length};
ghost use Rattle.lists.specs.Pages.{Room, Added};
ghost use Rattle.columns.specs.Fields.{total};
ghost use Rattle.registration.specs.Rules.{points, source_at, count_at};
ghost use Rattle.registration.specs.Pairs.{pairs_in};
ghost use Rattle.evaluation.specs.Layout.{size_of};
ghost use Rattle.event_writer.specs.Answers.{lines_of_consumer, lines_s, lines_of_points, lines_of_result, bytes_of_result};

use lines::Format;
use lists::Page;
use registration::Registration;

// How many bytes an A line takes; a constant takes no call, so that the widths are added here.
pub const ANSWER_BYTES: usize = 2 + ANSWER.widths[0] + ANSWER.widths[1];

// A: the answer, and the stamp or the dropped count.
pub const ANSWER: Format<2> = Format {
    letter: b'A',
    widths: [4, 13],
};

// R: the answer and the round count.
pub const ROUNDS: Format<2> = Format {
    letter: b'R',
    widths: [4, 2],
};

// S: a consumer, a producer and the pair's share.
const SHARE: Format<3> = Format {
    letter: b'S',
    widths: [4, 4, 10],
};

// U: a consumer and its remaining withdrawal.
const WITHDRAWAL: Format<2> = Format {
    letter: b'U',
    widths: [4, 10],
};

// V: a producer and its remaining supply.
const SUPPLY: Format<2> = Format {
    letter: b'V',
    widths: [4, 10],
};

// W: a point and its origin.
const ORIGIN: Format<2> = Format {
    letter: b'W',
    widths: [4, 2],
};

// Puts the S lines of a consumer with its pairs' shares.
fn put_consumer(page: &mut Page<u8>, registration: &Registration, consumer: usize, shares: &[u64])
    requires { (consumer < 64) × (length shares.now ≤ 5) × Room (20 * length shares.now) page.old }
    ensures { Added (lines_of_consumer (source_at registration.now consumer) consumer (length shares.now) 0 shares.now) page.old page.new }
{
    for (priority, share) in shares.iter().enumerate() {
        let source = registration.pair(consumer, priority).source;
        SHARE.put(page, [consumer as u64 + 1, source, *share]);
    }
}

// Puts the S lines of all consumers, whose shares stand at the front of the result list.
fn put_shares(page: &mut Page<u8>, registration: &Registration, numbers: &[u64])
    requires consumers_bound { points registration.now ≤ 64 }
    requires by_index { (consumer : ℕ) → consumer < registration.now.consumers → count_at registration.now consumer ≤ 5 }
    requires registration_in_bounds { (pairs_in registration.now ≤ length numbers.now) × Room (20 * pairs_in registration.now) page.old }
    ensures { Added (lines_s registration.now numbers.now) page.old page.new }
{
    let mut rest = numbers;
    for (consumer, count) in registration.counts[..registration.consumers]
        .iter()
        .enumerate()
    {
        let (shares, others) = rest.split_at(usize::from(*count));
        put_consumer(page, registration, consumer, shares);
        rest = others;
    }
}

// Puts a line for each of these numbers, with the point's number before it.
fn put_points(page: &mut Page<u8>, format: &Format<2>, numbers: &[u64])
    requires { (length format.now.widths ≡ 2) × (length numbers.now ≤ 64) × Room ((total format.now.widths + 2) * length numbers.now) page.old }
    ensures { Added (lines_of_points format.now.letter format.now.widths 0 (length numbers.now) numbers.now) page.old page.new }
{
    for (point, number) in numbers.iter().enumerate() {
        format.put(page, [point as u64 + 1, *number]);
    }
}

// Puts the result of an evaluation, line by line.
pub fn put_result(page: &mut Page<u8>, registration: &Registration, numbers: &[u64])
    requires consumers_bound { points registration.now ≤ 64 }
    requires by_index { (consumer : ℕ) → consumer < registration.now.consumers → count_at registration.now consumer ≤ 5 }
    requires registration_in_bounds { (size_of registration.now ≤ length numbers.now) × Room (bytes_of_result registration.now) page.old }
    ensures { Added (lines_of_result registration.now numbers.now) page.old page.new }
{
    let layout = evaluation::layout_of(registration);
    put_shares(page, registration, numbers);
    put_points(
        page,
        &WITHDRAWAL,
        &numbers[layout.withdrawals..layout.supplies],
    );
    put_points(page, &SUPPLY, &numbers[layout.supplies..layout.origins]);
    put_points(page, &ORIGIN, &numbers[layout.origins..layout.size]);
}
