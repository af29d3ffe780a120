// How long a file may be.

/// The greatest limit on a file's length that a run can be given, which the program and the calls for C use: 1 GiB, in bytes.
pub const GREATEST_LIMIT: u64 = 1_073_741_824;
