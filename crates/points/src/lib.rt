// The points of a group by their codes, and the sign that suits each: withdrawals arrive as negative numbers, supplies as positive.
#![tactic(auto)]

ghost use Rattle.std.specs.Prelude.{◌≡◌, eqb, position};
ghost use Rattle.points.specs.Points.{sign_suits};

// The number of the point with a code, where there is one.
pub fn find(codes: &[u64], code: u64) -> Option<usize>
    ensures { result ≡ position (λ other. eqb other code) codes.now }
{
    codes.iter().position(|other| *other == code)
}

// Whether a value's sign suits its point: the producers are the first points, and 0 suits either side.
pub fn sign_suits(value: i64, point: usize, producers: usize) -> bool
    ensures { result ≡ sign_suits producers point value }
{
    if point < producers {
        value >= 0
    } else {
        value <= 0
    }
}
