// The table that a sheet is read into: one part of memory, lent while the sheet is read; `accept::sheet::Sheet` owns it afterwards.
// Where everything lies in it, and what it means, is said in specs/Layout.antt and specs/Tables.antt. It stays bytes, with the
// places computed here alone: the definitions that say what it means, and every theorem over them, read one list of bytes. The
// terms lie in columns so that a search runs on many rows at once.
#![tactic(auto)]

pub mod blocks;
pub mod drawing;
pub mod kinds;
pub mod rows;

// How many bytes the table takes.
pub const TABLE: usize = BLOCKS + BLOCK_SIZE * MOST_SKELETONS;

// The limits of a sheet, and of a skeleton.
pub const MOST_TERMS: usize = 200;

pub const MOST_SKELETONS: usize = 2;

pub const MOST_STRANDS: usize = 6;

pub const MOST_HEIGHT: usize = 16;

pub const MOST_ORDERS: usize = 64;

pub const MOST_NONS: usize = 32;

pub const MOST_UNIQS: usize = 32;

// Where everything lies: the columns of the terms, the counts, the blocks.
const FIRSTS: usize = MOST_TERMS;

const SECONDS: usize = 2 * MOST_TERMS;

const TERM_COUNT: usize = 3 * MOST_TERMS;

const SKELETON_COUNT: usize = TERM_COUNT + 1;

const BLOCKS: usize = SKELETON_COUNT + 1;

// How many nodes a strand has room for.
const ROOM: usize = MOST_HEIGHT;

// Where everything lies within a block: the counts, the heights, a direction and a message for each node, the records.
const STRAND_COUNT: usize = 0;

const ORDER_COUNT: usize = 1;

const NON_COUNT: usize = 2;

const UNIQ_COUNT: usize = 3;

const HEIGHTS: usize = 4;

const DIRECTIONS: usize = HEIGHTS + MOST_STRANDS;

const MESSAGES: usize = DIRECTIONS + ROOM * MOST_STRANDS;

const ORDERS: usize = MESSAGES + ROOM * MOST_STRANDS;

const NONS: usize = ORDERS + 4 * MOST_ORDERS;

const UNIQS: usize = NONS + MOST_NONS;

const BLOCK_SIZE: usize = UNIQS + MOST_UNIQS;
