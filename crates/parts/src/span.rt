// The ranges of a part: an address's sector and block, and the protected end.
ghost use Rattle.std.specs.Prelude.{◌≡◌};
ghost use Rattle.parts.specs.Span.{block_of, has_blocks, holdsb, protected_of, range_of, sector_of};
ghost use Rattle.parts.specs.Width.{sector_size};

use crate::{End, Row};

// A range of cells: its first address and how many.
#[derive(Clone, Copy, PartialEq, Eq, Debug, Default)]
pub struct Span {
    pub first: u32,
    pub count: u32,
}

impl Span {
    // Whether the range holds an address.
    #[tactic(auto, unfolding(crate::specs::Span::holdsb), using(crate::proofs::Rules::tests))]
    pub fn holds(self, address: u32) -> bool
        ensures { result ≡ holdsb self address }
    {
        self.first <= address && address - self.first < self.count
    }
}

// The range of size cells that holds an address.
fn range(size: u32, address: u32) -> Span
    ensures { result ≡ range_of size address }
{
    if size == 0 {
        return Span::default();
    }
    Span {
        first: address / size * size,
        count: size,
    }
}

impl Row {
    // How many cells a sector has.
    #[tactic(auto, unfolding(crate::specs::Width::sector_size), using(crate::proofs::Rules::tests))]
    pub fn sector_size(self) -> u32
        ensures { result ≡ sector_size self.width }
    {
        match self.width {
            8 => 4096,
            _ => 2048,
        }
    }

    // The sector of an address.
    #[tactic(auto, unfolding(crate::specs::Span::sector_of))]
    pub fn sector_of(self, address: u32) -> Span
        ensures { result ≡ sector_of self address }
    {
        range(self.sector_size(), address)
    }

    // Whether the part has blocks.
    #[tactic(auto, unfolding(crate::specs::Span::has_blocks))]
    pub fn has_blocks(self) -> bool
        ensures { result ≡ has_blocks self }
    {
        0 < self.block
    }

    // The block of an address; no cells where the part has no blocks.
    #[tactic(auto, unfolding(crate::specs::Span::block_of))]
    pub fn block_of(self, address: u32) -> Span
        ensures { result ≡ block_of self address }
    {
        range(self.block, address)
    }

    // What WP# low protects: nothing, the lowest block or the highest.
    #[tactic(auto, unfolding(crate::specs::Span::protected_of))]
    pub fn protected_range(self) -> Span
        ensures { result ≡ protected_of self }
    {
        match self.protected {
            End::Neither => Span::default(),
            End::Lowest => self.block_of(0),
            End::Highest => self.block_of(self.cells.saturating_sub(1)),
        }
    }
}
