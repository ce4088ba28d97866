// Numbers that formulas and limits name.

/// The acceleration of gravity, in µm/s².
///
/// Source: this project's profile (32.2 ft/s²).
pub const GRAVITY: i128 = 9_814_560;

/// The most records of a kind: nodes, links, subcatchments, gages, curves, series, patterns, rules, inflows and dry
/// weather flows.
///
/// Source: this project's profile.
pub const RECORD_LIMIT: u32 = 20_000;
