// What the part table holds of a part: a line of numbers, and each by its name. The table itself is crate table.

// The end that WP# low protects: neither, the lowest block or the highest.
#[derive(Clone, Copy)]
pub enum End {
    Neither,
    Lowest,
    Highest,
}

// A part's line of the table: the columns Width, Cells, Block (0: none), Device ID, Program,
// Sector/block and Chip (times in µs), and the facts beside them: U1, U2 and how many addresses
// their compared low bits tell apart, the sector's and the block's code, the protected end, and
// whether an erase can be suspended.
// kept: no plainer: a line stands as the table has it; as a row by name each part would be fourteen lines
#[derive(Clone, Copy)]
pub struct Line {
    pub columns: [u32; 7],
    pub beside: [u32; 5],
    pub protected: End,
    pub suspends: bool,
}

// A part, each number by its name.
#[derive(Clone, Copy)]
pub struct Row {
    pub width: u32,
    pub cells: u32,
    pub block: u32,
    pub device: u32,
    pub program: u32,
    pub erase: u32,
    pub chip: u32,
    pub u1: u32,
    pub u2: u32,
    pub compared: u32,
    pub sector_code: u32,
    pub block_code: u32,
    pub protected: End,
    pub suspends: bool,
}
