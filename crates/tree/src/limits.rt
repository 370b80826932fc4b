//! Limits of rows and plans.

/// How many cradles a site has; they are numbered from 1 on.
pub const CRADLES: usize = 128;

/// The most pairs that a lawful plan has: 128 leaves, with seven nodes above each.
pub const MOST_PAIRS: usize = 896;
