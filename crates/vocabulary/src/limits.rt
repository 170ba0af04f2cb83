//! The limits of programs, tables and sets. Definitions read the same constants.

/// The most bytes of a program's file.
pub const MOST_PROGRAM_BYTES: u32 = 1_048_576;

/// The most tokens of a program's text, its end included.
pub const MOST_TOKENS: u32 = 65_536;

/// The most bytes of a name in a program.
pub const MOST_NAME_BYTES: u32 = 64;

/// How deep brackets and blocks may be nested.
pub const MOST_DEPTH: u32 = 64;

/// The most statements of a program, over its functions and its main procedure together.
pub const MOST_STATEMENTS: u32 = 4_096;

/// The most sets of a program.
pub const MOST_SETS: u32 = 8;

/// The most endpoints of an element.
pub const MOST_ENDPOINTS: u32 = 8;

/// The most fields of an element type.
pub const MOST_FIELDS: u32 = 32;

/// The most columns of a set's table, its endpoints' included.
pub const MOST_COLUMNS: u32 = 64;

/// The most elements of a set.
pub const MOST_ELEMENTS: u32 = 1_048_576;

/// The most bytes of a table's file.
pub const MOST_TABLE_BYTES: u32 = 67_108_864;

/// The largest scale of a field.
pub const MOST_FIELD_SCALE: u32 = 18;

/// The largest scale of a value inside a computation.
pub const MOST_SCALE: u32 = 36;

/// The most that a value may change its scale by at once.
pub const MOST_SCALE_CHANGE: u32 = 18;

/// The most rows or columns of a block.
pub const MOST_SIDE: u32 = 6;

/// The most scalar arguments of a function.
pub const MOST_ARGUMENTS: u32 = 8;

/// The most results of a function.
pub const MOST_RESULTS: u32 = 4;

/// The largest upper bound of a function's loop.
pub const MOST_LOOP_BOUND: u32 = 4_096;

/// The largest cost of a function.
pub const MOST_FUNCTION_COST: u32 = 65_536;

/// The most nodes of a program that is checked.
pub const MOST_NODES: u32 = 16_777_216;
