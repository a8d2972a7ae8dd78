// The sizes and limits of the service, each by its name; the definitions have the same in specs/Limits.antt.

// How many accounts there are (R2.1).
pub const ACCOUNT_LIMIT: usize = 64;

// The highest number of an account (R2.1).
pub const LAST_ACCOUNT: u32 = 63;

// The bytes of the longest name (R2.5).
pub const NAME_LIMIT: usize = 24;

// The four flags of an account, all set (R2.2).
pub const ALL_FLAGS: u32 = 15;

// How many accounts the longest trail has (R3.2).
pub const TRAIL_LIMIT: usize = 8;

// The bytes of the longest ticket record, and so the shortest output that a grant needs (R3.7).
pub const LONGEST_RECORD: usize = 31;

// How many tickets the ledger has places for (R7.1).
pub const TICKET_LIMIT: usize = 512;

// The last number that a ticket is given (R5.10).
pub const LAST_NUMBER: u64 = 65535;

// The seconds by which a clock reading may be before the start of a presented ticket (R5.2).
pub const CLOCK_SKEW: u64 = 300;

// The last second that a clock reading or an end can name (R1.2). It is the last number of 32 bits, so that a sum of seconds that saturates ends with it.
pub const LAST_SECOND: u32 = 4294967295;

const _: () = prove!(LAST_SECOND == u32::MAX);

// What 4, 8, 16, 32, 40, 48, 56 and 60 bits count to.
pub const TWO_4: u64 = 16;

pub const TWO_8: u64 = 256;

pub const TWO_16: u64 = 65536;

pub const TWO_32: u64 = 4294967296;

pub const TWO_40: u64 = 1099511627776;

pub const TWO_48: u64 = 281474976710656;

pub const TWO_56: u64 = 72057594037927936;

pub const TWO_60: u64 = 1152921504606846976;

// The accounts' words: where the rows start, the words of a row, those of them that hold length, flags and lifetime, the send set and the
// receive set, and all words.
pub const ROWS_START: usize = 8;

pub const ROW_SIZE: usize = 8;

pub const DETAIL_WORD: usize = 3;

pub const SEND_WORD: usize = 4;

pub const RECEIVE_WORD: usize = 5;

pub const ACCOUNTS_SIZE: usize = 520;

// The ledger's words: that of the stored count, that of the next number, where the numbers start, the bits of a number, how many stand in a word,
// where the places start, the words of a place, those of them that hold start and end, the back numbers and the trail, and all words.
pub const COUNT_WORD: usize = 0;

pub const NEXT_WORD: usize = 1;

pub const NUMBERS_START: usize = 8;

pub const NUMBER_BITS: usize = 16;

pub const NUMBERS_IN_WORD: usize = 4;

pub const PLACES_START: usize = 136;

pub const PLACE_SIZE: usize = 4;

pub const WINDOW_WORD: usize = 1;

pub const BACK_WORD: usize = 2;

pub const TRAIL_WORD: usize = 3;

pub const LEDGER_SIZE: usize = 2184;

// A saved service (R7.8): the bytes of each number, the magic, the layout's number and where it stands, where the words of the accounts and of the
// ledger start, where the check sum stands, and all bytes.
pub const WORD_SIZE: usize = 8;

pub const MAGIC: u64 = 0x895449434B455453;

pub const LAYOUT: u64 = 3;

pub const LAYOUT_PLACE: usize = 8;

pub const ACCOUNTS_PLACE: usize = 16;

pub const LEDGER_PLACE: usize = 4176;

pub const SUM_PLACE: usize = 21648;

pub const SAVED_SIZE: usize = 21664;
