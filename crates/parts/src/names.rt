// The numbers of document 01 by name: commands, stages of a write sequence, kinds of a last cycle, bits 7, 6 and 2, and the codes of suspend and resume. The refusals are an enum of their own.

// ---- commands
// kept: what may not change: numbers, as `start`, `command_writes` and `bus_cycle` take any and answer 14 or 5 to one above 3
// program
pub const PROGRAM: u32 = 0;
// sector erase
pub const SECTOR: u32 = 1;
// block erase
pub const BLOCK: u32 = 2;
// chip erase
pub const CHIP: u32 = 3;

// ---- the seven stages of a write sequence
// kept: what may not change: numbers, as `bus_cycle` takes any and answers 5 to one above 6
// none begun
pub const NONE_BEGUN: u32 = 0;
// AAH at U1
pub const FIRST_AAH: u32 = 1;
// 55H at U2
pub const FIRST_55H: u32 = 2;
// A0H at U1: program is armed
pub const ARMED: u32 = 3;
// 80H at U1: it goes on
pub const GONE_ON: u32 = 4;
// AAH at U1 again
pub const SECOND_AAH: u32 = 5;
// 55H at U2 again
pub const SECOND_55H: u32 = 6;

// ---- the last cycle that was sent
// kept: the C interface: the numbers stand in structs that cross C
// none
pub const NO_CYCLE: u32 = 0;
// a read
pub const A_READ: u32 = 1;
// a write
pub const A_WRITE: u32 = 2;

// ---- the bits of a word that tell how an operation stands
// bit 7
pub const BIT_7: u16 = 128;
// bit 6
pub const BIT_6: u16 = 64;
// bit 2
pub const BIT_2: u16 = 4;

// ---- document 02, Wish 2: an erase is suspended and resumed by one write each
// suspend, B0H
pub const SUSPEND_CODE: u16 = 0xb0;
// resume, 30H
pub const RESUME_CODE: u16 = 0x30;
