// The table of a cut file, and the checks of a file (Specification 16).
#![tactic(auto)]

ghost use Rattle.std.specs.Prelude.{◌≡◌, ◌+◌, ◌*◌, ◌≤◌, ◌<◌, length, cond, Some, None};
ghost use Rattle.refusals.specs.Checks.{first_of};
ghost use Rattle.refusals.specs.Refusals.{number_of, IsOutcome};
ghost use Rattle.region.specs.Measures.{picture_fits};
ghost use Rattle.cut_file.specs.File.{marker_of, entry_at, sample_count, body_at};
ghost use Rattle.cut_file.specs.Read.{planes_in, count_in, region_in, has_marker, bad_count, entry_checks, file_checks};
ghost use Rattle.cut_file.specs.Entry.{entry_number};

use cut_bytes::{i32_at, u16_at, u32_at};
use planes::{GREY_PLANES, PLANES};
use refusals::Refusal;
use region::Region;

// Compared on reading and written on writing: of a file of three planes, and of one of one plane.
pub const MARKER: [u8; 4] = *b"KCUT";

pub const GREY_MARKER: [u8; 4] = *b"KCU1";

pub const MARKER_LENGTH: usize = 4;

// The longest file, in bytes.
pub const MAX_FILE: usize = 16_777_216;

pub const MAX_RECTANGLES: u32 = 64;

// After the marker and the count.
pub const TABLE_START: usize = 6;

pub const ENTRY: usize = 16;

// The rectangles of a file: the first `count` of the regions.
// Form: C's struct, which holds all rectangles of a file, and there is no heap.
#[repr(C)]
#[derive(Clone, Copy)]
pub struct CutTable {
    pub count: u32,
    pub regions: [Region; 64],
}

// The marker of a file of so many planes, one or three.
pub fn marker_of(planes: u32) -> [u8; 4]
    ensures { result ≡ marker_of planes }
{
    if planes as usize == GREY_PLANES {
        return GREY_MARKER;
    }
    MARKER
}

// Where entry i starts.
pub fn entry_at(i: u32) -> usize
    ensures { result ≡ entry_at i }
{
    TABLE_START + ENTRY * i as usize
}

// The samples of a rectangle's planes, if it is within the limits.
pub fn sample_count(planes: u32, r: Region) -> Option<usize>
    ensures { result ≡ cond (picture_fits r) (Some (sample_count planes r)) None }
{
    if !r.picture_fits() {
        return None;
    }
    Some(planes as usize * (r.height as usize * r.width as usize))
}

// Whether a file can't have n rectangles: it has 1 to 64.
pub fn bad_count(n: u32) -> bool
    ensures { result ≡ bad_count n }
{
    n == 0 || MAX_RECTANGLES < n
}

fn has_marker(file: &[u8]) -> bool
    requires { 4 ≤ length file.now }
    ensures { result ≡ has_marker file.now }
{
    file.starts_with(&MARKER) || file.starts_with(&GREY_MARKER)
}

// The number of planes, by the marker.
pub fn planes_in(file: &[u8]) -> u32
    ensures { result ≡ planes_in file.now }
{
    if file.starts_with(&GREY_MARKER) {
        return GREY_PLANES as u32;
    }
    PLANES as u32
}

// The region of entry i.
pub fn region_in(file: &[u8], i: u32) -> Region
    ensures { result ≡ region_in file.now i }
{
    let at = entry_at(i);
    Region {
        left: i32_at(file, at + 4),
        top: i32_at(file, at + 8),
        width: u16_at(file, at + 12),
        height: u16_at(file, at + 14),
    }
}

// The samples of entry i, whose body has to start at byte `end`.
fn check_entry(file: &[u8], i: u32, end: usize) -> Result<usize, Refusal>
    requires { (i < 64) × (end ≡ body_at (planes_in file.now) (region_in file.now) (count_in file.now) i) }
    ensures { IsOutcome result (entry_number file.now i) (sample_count (planes_in file.now) (region_in file.now i)) }
{
    if file.len() < entry_at(i + 1) {
        return Err(Refusal::WrongEnd);
    }
    let samples = sample_count(planes_in(file), region_in(file, i)).ok_or(Refusal::BadEntry)?;
    if u32_at(file, entry_at(i)) as usize != end {
        return Err(Refusal::BadEntry);
    }
    Ok(samples)
}

// Refuses a wrong entry, or a file that doesn't end where its last body does.
// Form: no `sum`, since the check of an entry is told the sum so far: where its body has to start.
fn check_entries(file: &[u8], count: u32) -> Result<(), Refusal>
    requires { (count ≤ 64) × (count ≡ count_in file.now) }
    ensures { number_of result ≡ first_of (entry_checks file.now 0 count) }
{
    let mut end = entry_at(count);
    for i in 0..count {
        end += 4 * check_entry(file, i, end)?;
    }
    if file.len() != end {
        return Err(Refusal::WrongEnd);
    }
    Ok(())
}

// Refuses a file for the first of its faults (Specification 16.5).
#[tactic(auto, unfolding(crate::specs::Read::file_checks))]
pub fn check_file(file: &[u8]) -> Result<(), Refusal>
    ensures { number_of result ≡ first_of (file_checks file.now) }
{
    if MAX_FILE < file.len() {
        return Err(Refusal::WrongLength);
    }
    if file.len() < MARKER_LENGTH {
        return Err(Refusal::WrongEnd);
    }
    if !has_marker(file) {
        return Err(Refusal::NotACutFile);
    }
    if file.len() < TABLE_START {
        return Err(Refusal::WrongEnd);
    }
    let count = u16_at(file, MARKER_LENGTH);
    if bad_count(count) {
        return Err(Refusal::NotACutFile);
    }
    check_entries(file, count)
}
