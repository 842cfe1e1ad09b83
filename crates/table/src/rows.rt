// The part table of document 01, a line a part.
ghost use Rattle.std.specs.Prelude.{◌≡◌, ◌≤◌, IfOk};
ghost use Rattle.parts.specs.Refused.{answer_of};
ghost use Rattle.parts.specs.Table.{found_of, line_of, part_refusal, row_from, row_of, told_row};

use parts::{End, Line, Refusal, Row};

// The table, a line a part.
// columns: Width, Cells, Block, Device ID, Program, Sector/block, Chip
// beside: U1, U2, compared, sector code, block code
static LINES: [Line; 11] = [
    // 0 bench (house)
    Line {
        columns: [16, 8192, 4096, 0xfff0, 14, 18000, 70000],
        beside: [0x555, 0x2aa, 2048, 0x30, 0x50],
        protected: End::Lowest,
        suspends: false,
    },
    // 1 SF010A
    Line {
        columns: [8, 131072, 0, 0xb5, 14, 18000, 70000],
        beside: [0x5555, 0x2aaa, 32768, 0x30, 0x50],
        protected: End::Neither,
        suspends: false,
    },
    // 2 SF020A
    Line {
        columns: [8, 262144, 0, 0xb6, 14, 18000, 70000],
        beside: [0x5555, 0x2aaa, 32768, 0x30, 0x50],
        protected: End::Neither,
        suspends: false,
    },
    // 3 SF040
    Line {
        columns: [8, 524288, 0, 0xb7, 14, 18000, 70000],
        beside: [0x5555, 0x2aaa, 32768, 0x30, 0x50],
        protected: End::Neither,
        suspends: false,
    },
    // 4 VF200A
    Line {
        columns: [16, 131072, 32768, 0x2789, 14, 18000, 70000],
        beside: [0x5555, 0x2aaa, 32768, 0x30, 0x50],
        protected: End::Neither,
        suspends: false,
    },
    // 5 VF400A
    Line {
        columns: [16, 262144, 32768, 0x2780, 14, 18000, 70000],
        beside: [0x5555, 0x2aaa, 32768, 0x30, 0x50],
        protected: End::Neither,
        suspends: false,
    },
    // 6 VF800A
    Line {
        columns: [16, 524288, 32768, 0x2781, 14, 18000, 70000],
        beside: [0x5555, 0x2aaa, 32768, 0x30, 0x50],
        protected: End::Neither,
        suspends: false,
    },
    // 7 WF1601
    Line {
        columns: [16, 1048576, 32768, 0x274b, 28, 36000, 140000],
        beside: [0x5555, 0x2aaa, 32768, 0x30, 0x50],
        protected: End::Lowest,
        suspends: true,
    },
    // 8 WF1602
    Line {
        columns: [16, 1048576, 32768, 0x274a, 28, 36000, 140000],
        beside: [0x5555, 0x2aaa, 32768, 0x30, 0x50],
        protected: End::Highest,
        suspends: true,
    },
    // 9 VF6401B
    Line {
        columns: [16, 4194304, 32768, 0x236d, 7, 18000, 40000],
        beside: [0x555, 0x2aa, 2048, 0x50, 0x30],
        protected: End::Lowest,
        suspends: true,
    },
    // 10 VF6402B
    Line {
        columns: [16, 4194304, 32768, 0x236c, 7, 18000, 40000],
        beside: [0x555, 0x2aa, 2048, 0x50, 0x30],
        protected: End::Highest,
        suspends: true,
    },
];

// The line of a part.
fn line_of(part: u32) -> Line
    requires { part ≤ 10 }
    ensures { result ≡ line_of part }
{
    LINES[part as usize]
}

// Each number of a line by its name.
fn named(line: Line) -> Row
    ensures { result ≡ row_from line }
{
    let c = line.columns;
    let b = line.beside;
    let protected = line.protected;
    Row {
        width: c[0],
        cells: c[1],
        block: c[2],
        device: c[3],
        program: c[4],
        erase: c[5],
        chip: c[6],
        u1: b[0],
        u2: b[1],
        compared: b[2],
        sector_code: b[3],
        block_code: b[4],
        protected,
        suspends: line.suspends,
    }
}

// The row of a part: 1 for a part above 10.
#[tactic(auto, unfolding(parts::specs::Table::row_of, parts::specs::Table::part_refusal), using(crate::proofs::Told::past))]
pub fn part_row(part: u32) -> Result<Row, Refusal>
    ensures answer { answer_of result ≡ part_refusal part }
    ensures row { IfOk result (λ r. r ≡ row_of part) }
    ensures told { told_row result ≡ found_of part }
{
    if 10 < part {
        return Err(Refusal::NoPart);
    }
    Ok(named(line_of(part)))
}
