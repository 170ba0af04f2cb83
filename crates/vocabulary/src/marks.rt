//! The bytes that have a meaning of their own in cells, tables, words and programs.

pub const SPACE: u8 = b' ';

pub const MINUS: u8 = b'-';

pub const POINT: u8 = b'.';

pub const COMMA: u8 = b',';

pub const LINE_FEED: u8 = b'\n';

pub const ZERO: u8 = b'0';
