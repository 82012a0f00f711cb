// Registrations as text: a G line, a D line for each producer and an O line for each consumer. The definitions stand in `specs/`, the
// round trips are proved of them in `proofs/`; `registration_reader` reads such texts and `registration_writer` writes them.
#![tactic(auto)]

use lines::Format;

// The line of the group: producers, consumers, iteration.
pub const GROUP: Format<3> = Format {
    letter: b'G',
    widths: [4, 4, 2],
};

// The line of a producer: code, status.
pub const PRODUCER: Format<2> = Format {
    letter: b'D',
    widths: [19, 2],
};

// The letter of a consumer's line.
pub const CONSUMER: u8 = b'O';

// The widths of its fixed part: code, status, count.
pub const FIXED: [usize; 3] = [19, 2, 2];

// The widths of each pair after the fixed part: a producer's number and the key.
pub const PAIR: [usize; 2] = [4, 6];

// The bytes of a consumer's line up to its pairs. A constant takes no call, so that its widths are added here, and not by `total` of `lines`.
pub const FIXED_BYTES: usize = 1 + FIXED[0] + FIXED[1] + FIXED[2];

// The bytes of a pair.
pub const PAIR_BYTES: usize = PAIR[0] + PAIR[1];
