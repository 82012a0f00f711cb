// The published method: how much of each producer's supply every consumer receives in a quarter hour.
#![tactic(auto)]

ghost use Rattle.std.specs.Prelude.{◌≡◌, ◌≤◌, get_or};
ghost use Rattle.values.specs.Values.{magnitude_most};
ghost use Rattle.allocation.specs.Input.{Shareable, Magnitudes};
ghost use Rattle.allocation.specs.Rounds.{rounds_of, offer_of, share_of};
ghost use Rattle.allocation.specs.Result.{allocation_of};
ghost use Rattle.allocation.specs.Working.{PairsWithin, RoundMade, allocation_in};

use registration::Registration;

// The most rounds that there are.
pub const ROUNDS_MOST: usize = 5;

// The most points with which there is more than one round.
pub const POINTS_ITERATED_MOST: usize = 50;

// An allocation of a quarter hour in working arrays: what each pair received, at 5 × consumer + priority; what is left of each point, producers first; and
// the round count. What stands at places of no pair and of no point is free: the arrays are as long as any group needs, since there is no heap.
#[derive(Clone, Copy)]
pub struct Allocated {
    // one array of 320 numbers: a form that the project has to have, as docs/DECISIONS.md lists them
    pub shares: [u64; 320],
    pub left: [u64; 64],
    pub rounds: usize,
}

// How many rounds a group of so many points and consumers has. It takes numbers, since what it promises holds of more points than a registration may have.
#[tactic(auto, unfolding(crate::specs::Rounds::rounds_of))]
pub fn rounds(iteration: u8, points: usize, consumers: usize) -> usize
    ensures { result ≡ rounds_of iteration points consumers }
{
    // a number, as the C interface has it in a registration
    if iteration == 1 && points <= POINTS_ITERATED_MOST {
        consumers.min(ROUNDS_MOST)
    } else {
        1
    }
}

// A pair's share: the smaller of the remaining withdrawal and what the key gives of the supply, rounded down.
fn share_of(withdrawal: u64, key: u64, supply: u64) -> u64
    requires { (key ≤ 10000) × (supply ≤ magnitude_most) }
    ensures { result ≡ share_of withdrawal (offer_of key supply) }
{
    withdrawal.min(key * supply / Registration::KEY_MOST)
}

impl Allocated {
    // A round from what is left of each point: every consumer goes through its producers by priority. A share lowers what is left of the withdrawal at
    // once, and of the supply for the next round: what is offered in this one rests on the supplies at its start.
    #[tactic(auto, using(crate::proofs::Named::right, crate::proofs::Shareable::few_points, crate::proofs::Shareable::count_most))]
    fn make_round(&mut self, registration: &Registration)
        requires { Shareable registration.now × Magnitudes registration.now (λ point. get_or self.old.left point 0) × PairsWithin registration.now self.old.shares }
        ensures { RoundMade registration.now self.old self.new }
    {
        let start = self.left;
        // by number: a consumer's point, count, pairs and shares are all found by it
        for consumer in 0..registration.consumers {
            let point = registration.producers + consumer;
            let count = usize::from(registration.counts[consumer]);
            let mut withdrawal = start[point];
            for (priority, pair) in registration.pairs(consumer)[..count].iter().enumerate() {
                let producer = pair.source as usize - 1;
                let share = share_of(withdrawal, pair.key, start[producer]);
                withdrawal -= share;
                self.left[producer] -= share;
                self.shares[Registration::SOURCES * consumer + priority] += share;
            }
            self.left[point] = withdrawal;
        }
    }
}

// The allocation of a quarter hour from the magnitudes of all points, producers first.
pub fn allocate(registration: &Registration, magnitudes: &[u64; 64]) -> Allocated
    requires { Shareable registration.now × Magnitudes registration.now (λ point. get_or magnitudes.now point 0) }
    ensures { allocation_in registration.now result ≡ allocation_of registration.now (λ point. get_or magnitudes.now point 0) }
{
    let rounds = rounds(
        registration.iteration,
        registration.points(),
        registration.consumers,
    );
    let mut allocated = Allocated {
        shares: [0; 320],
        left: *magnitudes,
        rounds,
    };
    for _ in 0..rounds {
        allocated.make_round(registration);
    }
    allocated
}
