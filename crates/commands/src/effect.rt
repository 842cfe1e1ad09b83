// The writes in sequence: what follows from a write.
ghost use Rattle.std.specs.Prelude.{◌≡◌, ◌==◌, ◌%◌, false};
ghost use Rattle.parts.specs.Names.{FIRST-55H, SECOND-55H};
ghost use Rattle.parts.specs.Pick.{pick};
ghost use Rattle.commands.specs.Commands.{block_erase, effect_of};

use parts::Row;
use parts::names::{
    ARMED, BLOCK, CHIP, FIRST_55H, FIRST_AAH, GONE_ON, NONE_BEGUN, PROGRAM, SECOND_55H, SECOND_AAH,
    SECTOR,
};

// What a mode shows at rest: the cells, or the identity.
#[derive(Clone, Copy, PartialEq, Eq, Debug, Default)]
pub enum Mode {
    #[default]
    ReadMode,
    Identification,
}

// What follows: the sequence goes on to a stage, a command's operation starts, or a mode is entered.
// kept: what may not change: a stage and a command go as numbers into a device, of which `bus_cycle` takes any
#[derive(Clone, Copy, PartialEq, Eq, Debug)]
pub enum Effect {
    Goes(u32),
    Starts(u32),
    Enters(Mode),
}

// A write that does not continue the sequence returns to read mode; it is not taken as a first write.
const BROKEN: Effect = Effect::Enters(Mode::ReadMode);

// The low bits of an address, those that are compared.
fn compared(row: Row, a: u32) -> u32
    ensures { result ≡ a % row.compared }
{
    if row.compared == 0 {
        return a;
    }
    a % row.compared
}

// Whether a write is a byte at an unlock address.
fn is_at(row: Row, unlock: u32, a: u32, x: u16, byte: u32) -> bool
    ensures { result ≡ pick (a % row.compared == unlock) (x % 256 == byte) false }
{
    compared(row, a) == unlock && x as u32 % 256 == byte
}

// The third write, after 55H.
#[tactic(auto, unfolding(crate::specs::Commands::effect_of))]
fn third_write(row: Row, a: u32, x: u16) -> Effect
    ensures { result ≡ effect_of row FIRST-55H a x }
{
    if compared(row, a) != row.u1 {
        return BROKEN;
    }
    match x as u32 % 256 {
        0xa0 => Effect::Goes(ARMED),
        0x80 => Effect::Goes(GONE_ON),
        0x90 => Effect::Enters(Mode::Identification),
        0xf0 => Effect::Enters(Mode::ReadMode),
        _ => BROKEN,
    }
}

// The block code: a block erase where the part has blocks.
fn block_erase(row: Row) -> Effect
    ensures { result ≡ block_erase row }
{
    if row.has_blocks() {
        return Effect::Starts(BLOCK);
    }
    BROKEN
}

// The last write of an erase, after the second 55H.
#[tactic(auto, unfolding(crate::specs::Commands::effect_of))]
fn last_write(row: Row, a: u32, x: u16) -> Effect
    ensures { result ≡ effect_of row SECOND-55H a x }
{
    let byte = x as u32 % 256;
    if byte == row.sector_code {
        return Effect::Starts(SECTOR);
    }
    if byte == row.block_code {
        return block_erase(row);
    }
    if is_at(row, row.u1, a, x, 0x10) {
        return Effect::Starts(CHIP);
    }
    BROKEN
}

// What follows from a write at a stage of the sequence.
#[tactic(auto, unfolding(crate::specs::Commands::effect_of))]
pub fn effect_of(row: Row, stage: u32, a: u32, x: u16) -> Effect
    ensures { result ≡ effect_of row stage a x }
{
    // kept: what may not change: the stage is a number of a device, of which `bus_cycle` takes any
    match stage {
        NONE_BEGUN if is_at(row, row.u1, a, x, 0xaa) => Effect::Goes(FIRST_AAH),
        FIRST_AAH if is_at(row, row.u2, a, x, 0x55) => Effect::Goes(FIRST_55H),
        FIRST_55H => third_write(row, a, x),
        ARMED => Effect::Starts(PROGRAM),
        GONE_ON if is_at(row, row.u1, a, x, 0xaa) => Effect::Goes(SECOND_AAH),
        SECOND_AAH if is_at(row, row.u2, a, x, 0x55) => Effect::Goes(SECOND_55H),
        SECOND_55H => last_write(row, a, x),
        _ => BROKEN,
    }
}
