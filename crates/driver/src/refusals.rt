// The refusals of a command and of a driver's start, in document 01's order.
ghost use Rattle.std.specs.Prelude.{◌≡◌, IfOk};
ghost use Rattle.parts.specs.Refused.{answer_of};
ghost use Rattle.parts.specs.Table.{row_of};
ghost use Rattle.driver.specs.Refusals.{command_refusal, data_refusal, start_refusal, target_refusal};

use crate::machine::{Checked, Driver};
use crate::writes::Asked;
use parts::names::{CHIP, PROGRAM};
use parts::{Refusal, Row};

// 4 for data to program that does not fit.
#[tactic(auto, unfolding(crate::specs::Refusals::data_refusal), using(parts::proofs::Rules::tests))]
fn check_data(row: Row, command: u32, data: u16) -> Result<(), Refusal>
    ensures { answer_of result ≡ data_refusal row command «data» }
{
    if command != PROGRAM {
        return Ok(());
    }
    if !parts::fits(row.width, data) {
        return Err(Refusal::WideData);
    }
    Ok(())
}

// 14, then 3 but for a chip erase, then 4.
#[tactic(auto, unfolding(crate::specs::Refusals::target_refusal), using(parts::proofs::Rules::tests))]
fn check_target(row: Row, command: u32, address: u32, data: u16) -> Result<(), Refusal>
    ensures { answer_of result ≡ target_refusal row command address «data» }
{
    if !row.has_command(command) {
        return Err(Refusal::NoCommand);
    }
    if command == CHIP {
        return Ok(());
    }
    if row.cells <= address {
        return Err(Refusal::NoAddress);
    }
    check_data(row, command, data)
}

// A command with its part's row, or the refusal of its writes: 1, 14, 3, 4.
#[tactic(auto, unfolding(crate::specs::Refusals::command_refusal), using(parts::proofs::Told::refused, crate::proofs::Ready::known))]
pub(crate) fn check_command(
    part: u32,
    command: u32,
    address: u32,
    data: u16,
) -> Result<Asked, Refusal>
    ensures answer { answer_of result ≡ command_refusal part command address «data» }
    ensures row { IfOk result (λ a. a.row ≡ row_of part) }
    ensures asked { IfOk result (λ a. (a.command ≡ command) × (a.address ≡ address) × (a.«data» ≡ «data»)) }
{
    let row = table::part_row(part)?;
    check_target(row, command, address, data)?;
    Ok(Asked {
        row,
        command,
        address,
        data,
    })
}

// A driver with its part's row, or the refusal of its start: 1, 10, 14, 3, 4.
#[tactic(auto, unfolding(crate::specs::Refusals::start_refusal), using(parts::proofs::Told::refused, crate::proofs::Ready::known))]
pub(crate) fn check_start(driver: Driver) -> Result<Checked, Refusal>
    ensures answer { answer_of result ≡ start_refusal driver.part driver.command driver.address driver.«data» driver.p }
    ensures row { IfOk result (λ c. c.row ≡ row_of driver.part) }
    ensures driver { IfOk result (λ c. c.driver ≡ driver) }
{
    let row = table::part_row(driver.part)?;
    if !parts::is_interval(driver.p) {
        return Err(Refusal::BadInterval);
    }
    check_target(row, driver.command, driver.address, driver.data)?;
    Ok(Checked { driver, row })
}
