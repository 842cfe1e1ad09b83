// One bus cycle: refusals in order; then time passes; then the cycle acts.
ghost use Rattle.std.specs.Prelude.{◌≡◌, ◌+◌, ◌<◌, ◌≤◌, IfOk, length, true};
ghost use Rattle.parts.specs.Refused.{answer_of};
ghost use Rattle.parts.specs.Table.{row_of};
ghost use Rattle.device.specs.Cycle.{acted_of, action_refusal, bit2, bit6, bit7, chip, cut_of, cut_short, cycle_of, cycle_refusal, identity, inverted, mode_shows, outputs_of, read_of, reply, settled_of, showing, shown_of, status, tells, turned_by, veil, veils};
ghost use Rattle.device.specs.Device.{pending, toggled, with_running};
ghost use Rattle.device.specs.Operation.{cells_of};
ghost use Rattle.device.specs.Sequence.{written_of};
ghost use Rattle.device.specs.Needs.{InWords, RunsInside};

use crate::operation::{complete, cut_short};
use crate::sequence::{suspends, written};
use crate::state::{aged_by, in_range, is_busy, is_held, is_pending, suspend, with_core};
use commands::Mode;
use device::{Action, Core, Cycle, Device, Operation, Reply, Shown, no_operation};
use parts::names::{BIT_2, BIT_6, BIT_7, BLOCK, NONE_BEGUN, PROGRAM, SECTOR};
use parts::{Refusal, Row};

// The refusal of an address: 3.
#[tactic(auto, unfolding(device::specs::Cycle::action_refusal), using(parts::proofs::Rules::tests))]
fn check_address(row: Row, a: u32) -> Result<(), Refusal>
    ensures { answer_of result ≡ action_refusal row (Action.Read a) }
{
    if row.cells <= a {
        return Err(Refusal::NoAddress);
    }
    Ok(())
}

// The refusal of what a cycle does: 3 of a read or a write, then 4 of a write.
#[tactic(auto, unfolding(device::specs::Cycle::action_refusal), using(parts::proofs::Told::refused))]
fn check_action(row: Row, action: Action) -> Result<(), Refusal>
    ensures { answer_of result ≡ action_refusal row action }
{
    match action {
        Action::Read(a) => check_address(row, a),
        Action::Write(a, x) => {
            check_address(row, a)?;
            if !parts::fits(row.width, x) {
                return Err(Refusal::WideData);
            }
            Ok(())
        }
        Action::Idle => Ok(()),
        Action::Cut(_) => Ok(()),
    }
}

// A part that was looked up, by its row: its values and its device ID are words.
#[derive(Clone, Copy)]
pub(crate) struct Part {
    pub row: Row,
    ghost in_words: { InWords row },
}

// A cycle's part, or the cycle's refusal: 1, 2, 5, then 3 and 4.
#[tactic(auto, unfolding(device::specs::Cycle::cycle_refusal), using(parts::proofs::Told::refused, parts::proofs::Rules::tests, crate::proofs::Rules::known))]
fn check_cycle(part: u32, lent: usize, d: Device, action: Action) -> Result<Part, Refusal>
    ensures answer { answer_of result ≡ cycle_refusal part lent d action }
    ensures row { IfOk result (λ p. p.row ≡ row_of part) }
{
    let row = table::part_row(part)?;
    if lent != row.cells as usize {
        return Err(Refusal::WrongCells);
    }
    if !in_range(row, d) {
        return Err(Refusal::BadState);
    }
    check_action(row, action)?;
    Ok(Part { row })
}

// Bit 7 while busy.
fn bit_7(o: Operation) -> u16
    ensures { result ≡ bit7 o }
{
    if o.kind == PROGRAM {
        return 1 - o.data / BIT_7 % 2;
    }
    0
}

// Bit 6 while busy.
fn bit_6(o: Operation) -> u16
    ensures { result ≡ bit6 o }
{
    u16::from(o.toggle)
}

// Bit 2 where it tells of an erase.
fn bit_2(core: Core) -> u16
    ensures { result ≡ bit2 core true }
{
    u16::from(!core.turned)
}

impl Part {
    // Time passes.
    // kept: no plainer: `RunsInside` ties what runs to the length of the cells, which are lent anew at each cycle; so of `cut` and `act`
    #[tactic(auto, unfolding(device::specs::Cycle::settled_of))]
    fn settle(self, cells: &mut [u16], core: Core, elapsed: u32) -> Core
        requires { RunsInside self.row core (length cells.old) }
        ensures { (result ≡ (settled_of self.row cells.old core elapsed).core) × (cells.new ≡ (settled_of self.row cells.old core elapsed).cells) }
    {
        if !is_busy(core) {
            return aged_by(core, elapsed);
        }
        let o = core.running;
        if elapsed < o.left {
            let running = Operation {
                left: o.left - elapsed,
                ..o
            };
            return Core { running, ..core };
        }
        complete(cells, self, o);
        Core {
            recent: elapsed == o.left,
            turned: false,
            running: no_operation(),
            ..core
        }
    }

    // Whether bit 2 tells of an erase at an address: in its range, on the parts that can suspend one. Each poll of an erase asks
    // this.
    #[tactic(auto, unfolding(device::specs::Cycle::tells, device::specs::Operation::cells_of, parts::specs::Span::holdsb))]
    fn tells_of(self, o: Operation, a: u32) -> bool
        ensures { result ≡ tells self.row o a }
    {
        if !self.row.suspends {
            return false;
        }
        match o.kind {
            PROGRAM => false,
            SECTOR => self.row.sector_of(o.address).holds(a),
            BLOCK => self.row.block_of(o.address).holds(a),
            _ => a < self.row.cells,
        }
    }

    // A busy read: one that shows bit 2 turns it over.
    fn look_busy(self, core: Core, a: u32) -> Shown
        ensures { result ≡ showing (status self.row core a) (turned_by (with_running core (toggled core.running)) (tells self.row core.running a)) }
    {
        let o = core.running;
        let value = bit_7(o) * BIT_7 + bit_6(o) * BIT_6;
        let running = Operation {
            toggle: !o.toggle,
            ..o
        };
        let read = Core { running, ..core };
        if self.tells_of(o, a) {
            return Shown {
                value: value + bit_2(core) * BIT_2,
                core: Core {
                    turned: !core.turned,
                    ..read
                },
            };
        }
        Shown { value, core: read }
    }

    // What identification mode shows at an address.
    fn identity_at(self, a: u32) -> u16
        ensures { result ≡ identity self.row a }
    {
        match a {
            0 => 0xbf,
            1 => self.row.device as u16,
            _ => 0,
        }
    }

    // All the part's bits but 7 inverted.
    #[tactic(auto, using(crate::proofs::Rules::width))]
    fn invert(self, v: u16) -> u16
        ensures { result ≡ inverted self.row.width v }
    {
        v ^ (parts::blank(self.row.width) - BIT_7)
    }

    // What a read at rest shows with nothing suspended, once a completion is older than 0 µs.
    // kept: no plainer: that the cell is lent is asked by this and four more; a struct of cells and address would be made for one read
    fn mode_shows(self, cells: &[u16], mode: Mode, a: u32) -> u16
        requires { a < length cells.now }
        ensures { result ≡ mode_shows self.row cells.now mode a }
    {
        match mode {
            Mode::ReadMode => parts::value(self.row.width, cells[a as usize]),
            Mode::Identification => self.identity_at(a),
        }
    }

    // Whether a suspended erase veils an address: one of its range, in read mode.
    #[tactic(auto, unfolding(device::specs::Cycle::veils))]
    fn is_veiled(self, core: Core, a: u32) -> bool
        ensures { result ≡ veils self.row core a }
    {
        is_held(core) && core.mode == Mode::ReadMode && self.tells_of(core.suspended, a)
    }

    // What the outputs show of a value at rest: inverted while a completion is 0 µs old.
    fn outputs(self, recent: bool, v: u16) -> u16
        ensures { result ≡ outputs_of self.row.width recent v }
    {
        if recent {
            return self.invert(v);
        }
        v
    }

    // A read at rest of a veiled address: it turns bit 2 over.
    fn look_veiled(self, core: Core) -> Shown
        ensures { result ≡ showing (outputs_of self.row.width core.recent (veil core)) (turned_by core true) }
    {
        let v = BIT_7 + BIT_6 + bit_2(core) * BIT_2;
        Shown {
            value: self.outputs(core.recent, v),
            core: Core {
                turned: !core.turned,
                ..core
            },
        }
    }

    // A read at rest of an address that is not veiled.
    fn look_plainly(self, cells: &[u16], core: Core, a: u32) -> Shown
        requires { a < length cells.now }
        ensures { result ≡ showing (outputs_of self.row.width core.recent (mode_shows self.row cells.now core.mode a)) core }
    {
        let v = self.mode_shows(cells, core.mode, a);
        Shown {
            value: self.outputs(core.recent, v),
            core,
        }
    }

    // A read at rest while an erase is suspended.
    fn look_held(self, cells: &[u16], core: Core, a: u32) -> Shown
        requires { a < length cells.now }
        ensures { result ≡ showing (outputs_of self.row.width core.recent (shown_of self.row cells.now core a)) (turned_by core (veils self.row core a)) }
    {
        if self.is_veiled(core, a) {
            return self.look_veiled(core);
        }
        self.look_plainly(cells, core, a)
    }

    // A read, after its time has passed.
    #[tactic(auto, unfolding(device::specs::Cycle::read_of), using(device::proofs::Cases::unveiled))]
    fn look(self, cells: &[u16], core: Core, a: u32) -> Shown
        requires { a < length cells.now }
        ensures { result ≡ read_of self.row cells.now core a }
    {
        if is_busy(core) {
            return self.look_busy(core, a);
        }
        if is_held(core) {
            return self.look_held(cells, core, a);
        }
        self.look_plainly(cells, core, a)
    }

    // What a power cut leaves of an operation, where it is pending.
    fn cut_one(self, cells: &mut [u16], o: Operation, scar: u16)
        requires { pending o ≡ true → (cells_of self.row o).first + (cells_of self.row o).count ≤ length cells.old }
        ensures { cells.new ≡ cut_short self.row o scar cells.old }
    {
        if is_pending(o) {
            cut_short(cells, self.row, o, scar);
        }
    }

    // A power cut, after its time has passed: what runs and what is suspended are cut short.
    #[tactic(auto, unfolding(device::specs::Cycle::cut_of))]
    fn cut(self, cells: &mut [u16], core: Core, scar: u16)
        requires { RunsInside self.row core (length cells.old) }
        ensures { cells.new ≡ cut_of self.row cells.old core scar }
    {
        self.cut_one(&mut *cells, core.running, scar);
        self.cut_one(cells, core.suspended, scar);
    }

    // A read of a device.
    fn read_cycle(self, cells: &[u16], d: Device, a: u32) -> Reply
        requires { a < length cells.now }
        ensures { result ≡ (acted_of self.row (chip cells.now d) true (Action.Read a)).reply }
    {
        let s = self.look(cells, d.core, a);
        Reply {
            answer: 0,
            value: s.value,
            device: with_core(d, s.core),
        }
    }

    // A write to a device.
    #[tactic(auto, unfolding(device::specs::Sequence::written_of))]
    fn write_cycle(self, d: Device, wp: bool, a: u32, x: u16) -> Reply
        ensures { result ≡ reply 0 0 (written_of self.row d wp a x) }
    {
        if suspends(self.row, d.core, x) {
            return Reply {
                answer: 0,
                value: 0,
                device: Device {
                    core: suspend(d.core),
                    stage: NONE_BEGUN,
                },
            };
        }
        Reply {
            answer: 0,
            value: 0,
            device: written(self.row, d, wp, a, x),
        }
    }

    // The cycle acts.
    #[tactic(auto, using(crate::proofs::Rules::there))]
    fn act(self, cells: &mut [u16], d: Device, wp: bool, action: Action) -> Reply
        requires runs_inside { RunsInside self.row d.core (length cells.old) }
        requires cells_value { (self.row.cells ≡ length cells.old) × (action_refusal self.row action ≡ 0) }
        ensures { (result ≡ (acted_of self.row (chip cells.old d) wp action).reply) × (cells.new ≡ (acted_of self.row (chip cells.old d) wp action).cells) }
    {
        match action {
            Action::Read(a) => self.read_cycle(cells, d, a),
            Action::Write(a, x) => self.write_cycle(d, wp, a, x),
            Action::Idle => Reply {
                answer: 0,
                value: 0,
                device: d,
            },
            Action::Cut(scar) => {
                self.cut(cells, d.core, scar);
                Reply {
                    answer: 0,
                    value: 0,
                    device: device::fresh(),
                }
            }
        }
    }
}

// One bus cycle on the lent cells of a part: what it answers and shows, and the device afterwards. A refused one hands the device back.
// kept: what may not change: what a refused cycle hands back beside its number, which its clause and demands' `bus-cycle-refuses` speak of
pub fn bus_cycle(part: u32, cells: &mut [u16], device: Device, cycle: Cycle) -> Reply
    ensures { (result ≡ (cycle_of part cells.old device cycle).reply) × (cells.new ≡ (cycle_of part cells.old device cycle).cells) }
{
    match check_cycle(part, cells.len(), device, cycle.action) {
        Ok(known) => {
            let core = known.settle(&mut *cells, device.core, cycle.elapsed);
            known.act(cells, with_core(device, core), cycle.wp, cycle.action)
        }
        Err(refusal) => Reply {
            answer: refusal.number(),
            value: 0,
            device,
        },
    }
}
