// The offsets of a step of the edge-preserving filter, in the original's order (Specification 11.2, 11.3): the neighbours
// that it weighs, and where a distance compares samples. A byte has one offset: its low half the columns to the right plus
// 4, its high half the rows down plus 3. So the halves are a column and a row from the corner of a view, which is 3 rows
// above the filtered sample and 4 columns left of it, and an index takes them as they are.
// Form: a step is a number in the definitions and for callers, and chooses a table; steps after 2 are like step 2.
#![tactic(auto)]

ghost use Rattle.std.specs.Prelude.{◌≡◌};
ghost use Rattle.epf_offsets.specs.Offsets.{place_of, neighbour_place, compared_place};

// `epf_kernel_offsets` of step 0, and of steps 1 and 2.
const FIRST_KERNEL: [u8; 12] = [
    0x14, 0x23, 0x24, 0x25, 0x32, 0x33, 0x35, 0x36, 0x43, 0x44, 0x45, 0x54,
];

const LATER_KERNEL: [u8; 4] = [0x24, 0x44, 0x33, 0x35];

// `epf_dist_offsets` of steps 0, 1 and 2.
const FIRST_COMPARED: [u8; 5] = [0x24, 0x35, 0x34, 0x33, 0x44];

const SECOND_COMPARED: [u8; 5] = [0x24, 0x34, 0x44, 0x33, 0x35];

const LAST_COMPARED: [u8; 1] = [0x34];

// The sample itself.
const CENTRE: u8 = 0x34;

// A sample's row and column from the corner of a view.
#[derive(Clone, Copy, Debug, PartialEq, Eq)]
pub struct Place {
    pub row: usize,
    pub col: usize,
}

// The place that a byte has.
fn place_of(byte: u8) -> Place
    ensures { result ≡ place_of byte }
{
    Place {
        row: usize::from(byte / 16),
        col: usize::from(byte % 16),
    }
}

// The place of neighbour q; past the last one that of the sample itself.
pub fn neighbour_place(step: usize, q: usize) -> Place
    ensures { result ≡ neighbour_place step q }
{
    if step == 0 {
        return place_of(*FIRST_KERNEL.get(q).unwrap_or(&CENTRE));
    }
    place_of(*LATER_KERNEL.get(q).unwrap_or(&CENTRE))
}

// The place of the i-th sample that a distance compares; past the last one that of the sample itself.
pub fn compared_place(step: usize, i: usize) -> Place
    ensures { result ≡ compared_place step i }
{
    match step {
        0 => place_of(*FIRST_COMPARED.get(i).unwrap_or(&CENTRE)),
        1 => place_of(*SECOND_COMPARED.get(i).unwrap_or(&CENTRE)),
        _ => place_of(*LAST_COMPARED.get(i).unwrap_or(&CENTRE)),
    }
}
