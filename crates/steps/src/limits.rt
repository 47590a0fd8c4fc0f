// Limits (documents 01 and 02), by the names of the definitions (specs/Limits of model). That an index is below its limit is asked where an array is
// read, as the language asks it: a type for it would be taken apart at every array.
pub const MOST_FANS: u32 = 8;

pub const MOST_TOP: u32 = 1000000;

pub const LAST_RULE: u32 = 1;

pub const VALVE_REST: u32 = 300;

pub const MOST_BAY: u32 = 999;

pub const LAST_OPEN_BAY: u32 = 899;

pub const WEEK: u32 = 604800;

pub const LAST_RELEASE: u32 = 604799;

pub const MOST_GRAMS: u32 = 1000000;

pub const MOST_DOSES: usize = 24;

pub const ORDER_ROOM: usize = 1600;

pub const MOST_INTERVALS: usize = 47;

pub const MOST_INSTANTS: usize = 48;

pub const CELLS: usize = 1128;

pub const MOST_MARKS: usize = 72;

pub const PLAN_ROOM: usize = 47392;

pub const LOG_ROOM: usize = 131072;

pub const GRAM_PARTS: u32 = 1024;

pub const MOST_FLOW: u32 = 1024000;

pub const STREAM_ROOM: usize = 65536;

pub const ORDER_NUMBERS: usize = 10;
