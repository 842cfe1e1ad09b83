// The search for a bit that must rise, over cells and their bits, and the decision of a sector.
ghost use Rattle.std.specs.Prelude.{◌≡◌};
ghost use Rattle.values.specs.Search.{decision_of, leading_of, rise_from};

// What a sector asks for: clearing bits suffices, or its erase.
#[derive(Clone, Copy, PartialEq, Eq, Debug)]
pub enum Decision {
    NoErase,
    SectorErase,
}

// Where a value of old has a 0 among its low bits and that of new a 1, by the cell and its lowest such bit: the search ends at the first one found, or with the shorter slice.
#[tactic(auto, using(crate::proofs::Turns::bit_misses))]
fn first_rise(old: &[u16], new: &[u16], width: u32) -> Option<(usize, u32)>
    ensures { result ≡ rise_from width 0 old.now new.now }
{
    let mut found = None;
    'cells: for (i, (&o, &n)) in old.iter().zip(new).enumerate() {
        let (mut o, mut n) = (o, n);
        for bit in 0..width {
            if o % 2 == 0 && n % 2 == 1 {
                found = Some((i, bit));
                break 'cells;
            }
            o /= 2;
            n /= 2;
        }
    }
    found
}

// The decision of a sector, from the values read and the image's.
pub fn decision_of(read: &[u16], image: &[u16], width: u32) -> Decision
    ensures { result ≡ decision_of width read.now image.now }
{
    match first_rise(read, image, width) {
        Some(_) => Decision::SectorErase,
        None => Decision::NoErase,
    }
}

// How many of the values at the front are v.
pub fn leading(values: &[u16], v: u16) -> usize
    ensures { result ≡ leading_of v values.now }
{
    values.iter().take_while(|&&x| x == v).count()
}
