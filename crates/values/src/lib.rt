// Values as they arrive, signed numbers, withdrawals below 0; and the measurements that bring them.
#![tactic(auto)]

// What a submission brings: the code of a point, a day and its quarter, and the value, positive for a supply and negative for a withdrawal.
#[repr(C)]
#[derive(Clone, Copy)]
pub struct Measurement {
    pub code: u64,
    pub day: u64,
    pub quarter: u64,
    pub value: i64,
}

// The greatest magnitude.
pub const MAGNITUDE_MOST: u64 = 99999999;
