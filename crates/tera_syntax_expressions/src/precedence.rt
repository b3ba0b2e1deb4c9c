// Levels of precedence: what binds tighter has a greater number.

/// `a if c else b`, and so any expression.
pub const CHOICE: u8 = 0;

/// `or`.
pub const OR: u8 = 1;

/// `and`.
pub const AND: u8 = 2;

/// `not`.
pub const NOT: u8 = 3;

/// `==` and its like, `in` and `is`.
pub const COMPARISON: u8 = 4;

/// `~`.
pub const CONCATENATION: u8 = 5;

/// `+` and `-` between operands.
pub const SUM: u8 = 6;

/// `*`, `/`, `//` and `%`.
pub const PRODUCT: u8 = 7;

/// `-` before an operand.
pub const MINUS: u8 = 8;

/// `**`.
pub const POWER: u8 = 9;

/// `|`.
pub const FILTER: u8 = 10;

/// What stands by itself, with its attributes and indexes.
pub const OPERAND: u8 = 11;

/// Above each level: no expression goes on.
pub const NOTHING: u8 = 12;
