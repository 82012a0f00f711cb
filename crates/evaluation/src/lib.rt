// The evaluation of a quarter hour as of a stamp: the points' values are looked up, their magnitudes are allocated, and allocation and origins are put
// into a result list.
#![tactic(auto)]

ghost use Rattle.std.specs.Prelude.{◌≡◌, ◌*◌, ◌≤◌, ℕ, ◌<◌, length, get_or, sum};
ghost use Rattle.lists.specs.Place.{placed};
ghost use Rattle.lists.specs.Pages.{Room, Added};
ghost use Rattle.registration.specs.Rules.{points, place_at};
ghost use Rattle.registration.specs.Pairs.{pairs_in};
ghost use Rattle.journal.specs.Stored.{entries_in};
ghost use Rattle.allocation.specs.Input.{Shareable};
ghost use Rattle.allocation.specs.Result.{pairs_of};
ghost use Rattle.lookup.specs.Substitutes.{number_of_origin};
ghost use Rattle.lookup.specs.Working.{value_of_point};
ghost use Rattle.evaluation.specs.Evaluation.{result_from};
ghost use Rattle.evaluation.specs.Layout.{size_of, result_of, LaidOut, ResultPut};
ghost use Rattle.evaluation.specs.Working.{values_in, origins_of, result_in};

use allocation::Allocated;
use lists::Page;
use lookup::{Lookup, PointValue};
use registration::Registration;

// The most numbers that the result of an undamaged registration has.
pub const RESULT_MOST: usize = 423;

// Where the remaining withdrawals, the remaining supplies and the origins begin in a result, which begins with the shares, and how many numbers it has.
#[derive(Clone, Copy)]
pub struct Layout {
    pub withdrawals: usize,
    pub supplies: usize,
    pub origins: usize,
    pub size: usize,
}

// How many pairs consumers have, each with as many producers as it names.
fn pairs(counts: &[u8]) -> usize
    requires { length counts.now ≤ 64 }
    ensures { (result ≡ sum counts.now) × (result ≤ 255 * length counts.now) }
{
    counts.iter().map(|count| usize::from(*count)).sum()
}

// The layout of a group's results.
pub fn layout_of(registration: &Registration) -> Layout
    requires { points registration.now ≤ 64 }
    ensures { LaidOut registration.now result }
{
    let consumers = registration.consumers;
    let withdrawals = pairs(&registration.counts[..consumers]);
    let supplies = withdrawals + consumers;
    let origins = supplies + registration.producers;
    let size = origins + registration.points();
    Layout {
        withdrawals,
        supplies,
        origins,
        size,
    }
}

// Puts the pairs' shares, consumers in order and priorities within.
fn put_shares(page: &mut Page<u64>, registration: &Registration, shares: &[u64; 320])
    requires { Shareable registration.now × Room (pairs_in registration.now) page.old }
    ensures { Added (pairs_of registration.now (place_at shares.now)) page.old page.new }
{
    let counts = &registration.counts[..registration.consumers];
    let (rows, _) = shares.as_chunks::<{ Registration::SOURCES }>();
    for (row, count) in rows.iter().zip(counts) {
        page.put(&row[..usize::from(*count)]);
    }
}

// Puts the number of each value's origin.
fn put_origins(page: &mut Page<u64>, values: &[PointValue])
    requires { Room (length values.now) page.old }
    ensures { Added (origins_of values.now) page.old page.new }
{
    for value in values {
        page.put(&[u64::from(value.origin)]);
    }
}

// Puts the parts of a result at the front of a result list, one after the other; later numbers stay.
fn put_parts(
    list: &mut [u64],
    registration: &Registration,
    allocated: &Allocated,
    values: &[PointValue],
)
    requires { Shareable registration.now × (length values.now ≡ points registration.now) × (size_of registration.now ≤ length list.old) }
    ensures { list.new ≡ placed 0 (result_of (result_in registration.now allocated.now (origins_of values.now))) list.old }
{
    let points = registration.points();
    let (supplies, withdrawals) = allocated.left[..points].split_at(registration.producers);
    let mut page = Page {
        space: list,
        end: 0,
    };
    put_shares(&mut page, registration, &allocated.shares);
    page.put(withdrawals);
    page.put(supplies);
    put_origins(&mut page, values);
}

// The magnitudes of the points' values: of all 64, as they are looked up. By number, and not by the library's `map`, which is slower here: it takes the
// values as a copy.
fn magnitudes(values: &[PointValue; 64]) -> [u64; 64]
    ensures { (point : ℕ) → point < 64 → get_or result point 0 ≡ (value_of_point values.now point).magnitude }
{
    let mut magnitudes = [0; 64];
    for (point, value) in values.iter().enumerate() {
        magnitudes[point] = value.magnitude;
    }
    magnitudes
}

// The result of a look-up's quarter hour, put into the result list, whose later numbers stay. Returns the round count.
pub fn evaluate(registration: &Registration, lookup: Lookup, list: &mut [u64]) -> usize
    requires { Shareable registration.now × (size_of registration.now ≤ length list.old) }
    ensures { ResultPut (result_from registration.now (values_in registration.now (entries_in lookup.entry.entries.now) lookup.entry.asked.day lookup.entry.asked.quarter lookup.entry.asked.until)) list.old list.new result }
{
    let points = registration.points();
    let values = lookup.values(&registration.statuses[..points]);
    let allocated = allocation::allocate(registration, &magnitudes(&values));
    put_parts(list, registration, &allocated, &values[..points]);
    allocated.rounds
}
