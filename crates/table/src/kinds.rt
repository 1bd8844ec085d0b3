// The kinds of plain words by name.
pub const FALSE: u32 = 1;

pub const TRUE: u32 = 2;

pub const LETTER: u32 = 3;

pub const NOT_LETTER: u32 = 4;

pub const AND: u32 = 5;

pub const OR: u32 = 6;

pub const NEXT: u32 = 7;

pub const UNTIL: u32 = 8;

pub const WEAK: u32 = 9;

pub const RELEASE: u32 = 10;

pub const STRONG: u32 = 11;
