/// How many leaves a private cache keeps at most.
pub const PRIVATE_LEAVES: usize = 16;

/// How many places a list of residents has at most.
pub const MOST_RESIDENTS: u32 = 1024;
