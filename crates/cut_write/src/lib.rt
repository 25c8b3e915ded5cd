// Writing a cut file: the length that a table needs, and the file (Specification 16).
#![tactic(auto)]

ghost use Rattle.std.specs.Prelude.{◌≡◌, ◌+◌, ◌≤◌, cond, length};
ghost use Rattle.std.proofs.lemmas.List.Edits.{sets};
ghost use Rattle.refusals.specs.Numbers.{out_of_range};
ghost use Rattle.refusals.specs.Checks.{first_of};
ghost use Rattle.refusals.specs.Refusals.{number_of, IsOutcome};
ghost use Rattle.planes.specs.Band.{planes_fit};
ghost use Rattle.cut_file.specs.File.{marker_of, entry_bytes, file_length, table_bytes};
ghost use Rattle.cut_file.specs.Write.{rectangle, table_checks, length_checks};
ghost use Rattle.cut_write.specs.Fits.{TableFits};
ghost use Rattle.cut_write.specs.Outcome.{length_answer_of, WriteOutcome, write_outcome};

use byteorder::{ByteOrder, LittleEndian};
use cut_bytes::{bits_of, put_u16, put_u32};
use cut_file::{CutTable, MARKER_LENGTH, MAX_FILE, bad_count, entry_at, marker_of, sample_count};
use planes::planes_fit;
use refusals::{Refusal, number_of};
use region::Region;

// The length of a file, in bytes.
// Form: C's answer, a number with zeros beside a refusal; Rust callers get the `Result`. `MirrorAnswer` of `mirror` has
// fields of these types too, but an index.
#[repr(C)]
#[derive(Clone, Copy)]
pub struct LengthAnswer {
    pub number: u32,
    pub length: usize,
}

// The answer at the C boundary stands here, since the theorem of `cut_round` speaks of it.
// Form: one impl for each of C's structs, since an impl that a macro writes is refused.
impl From<Result<usize, Refusal>> for LengthAnswer {
    ghost from_gives = { λ needed answer. answer ≡ length_answer_of needed };

    fn from(needed: Result<usize, Refusal>) -> LengthAnswer {
        LengthAnswer {
            number: number_of(needed),
            length: needed.unwrap_or_default(),
        }
    }
}

// The length of the file that a table needs with any number of planes, if the table's count and its rectangles are within
// the limits: even with 4,294,967,295 planes it is below 2^64.
// Form: no `sum` into a `Result`, of which it is not proved that it fails where a rectangle is beyond the limits.
fn file_end(table: CutTable, planes: u32) -> Result<usize, Refusal>
    ensures { IsOutcome result (first_of (table_checks table)) (file_length planes (rectangle table) table.count) }
{
    if bad_count(table.count) {
        return Err(Refusal::NotACutFile);
    }
    let mut end = entry_at(table.count);
    for r in &table.regions[..table.count as usize] {
        end += 4 * sample_count(planes, *r).ok_or(Refusal::OutOfLimits)?;
    }
    Ok(end)
}

// Refuses a number of planes that is neither one nor three.
fn check_planes(planes: u32) -> Result<(), Refusal>
    ensures { number_of result ≡ cond (planes_fit planes) 0 out_of_range }
{
    if !planes_fit(planes) {
        return Err(Refusal::OutOfRange);
    }
    Ok(())
}

// The length of the file that a table needs with this number of planes.
pub fn cut_length(table: CutTable, planes: u32) -> Result<usize, Refusal>
    ensures { IsOutcome result (first_of (length_checks planes table))
        (file_length planes (rectangle table) table.count) }
{
    let needed = file_end(table, planes)?;
    check_planes(planes)?;
    if MAX_FILE < needed {
        return Err(Refusal::WrongLength);
    }
    Ok(needed)
}

fn put_entry(file: &mut [u8], at: usize, offset: u32, r: Region)
    requires { at + 16 ≤ length file.old }
    ensures { file.new ≡ sets file.old at (entry_bytes offset r) }
{
    put_u32(file, at, offset);
    put_u32(file, at + 4, bits_of(r.left));
    put_u32(file, at + 8, bits_of(r.top));
    put_u16(file, at + 12, r.width);
    put_u16(file, at + 14, r.height);
}

// The entries, each with the offset of its body. All rectangles are within the limits, so each has a count of samples.
// Form: the parameters are what `write_cut` takes from C; a struct of them would be made there and taken apart here.
fn put_table(file: &mut [u8], table: CutTable, planes: u32)
    requires { TableFits planes table (length file.old) }
    ensures { file.new ≡ sets file.old 6
        (table_bytes planes (rectangle table) table.count table.count) }
{
    let mut end = entry_at(table.count);
    for (i, r) in table.regions[..table.count as usize].iter().enumerate() {
        put_entry(file, entry_at(i as u32), end as u32, *r);
        end += 4 * sample_count(planes, *r).unwrap_or_default();
    }
}

fn put_marker(file: &mut [u8], planes: u32)
    requires { 4 ≤ length file.old }
    ensures { file.new ≡ sets file.old 0 (marker_of planes) }
{
    file[..MARKER_LENGTH].copy_from_slice(&marker_of(planes));
}

// Writes the file of the table's rectangles and their samples: bit patterns, rectangle after rectangle, each plane
// after plane.
// Form: the parameters are those of the C function, which passes them on in their order.
pub fn write_cut(
    table: CutTable,
    planes: u32,
    samples: &[u32],
    file: &mut [u8],
) -> Result<(), Refusal>
    ensures { ◌≡◌ {A = WriteOutcome} (record { number = number_of result; file = file.new })
        (write_outcome table planes samples.now file.old) }
{
    let needed = file_end(table, planes)?;
    if MAX_FILE < file.len() {
        return Err(Refusal::WrongLength);
    }
    check_planes(planes)?;
    if file.len() != needed {
        return Err(Refusal::WrongLength);
    }
    let bodies = entry_at(table.count);
    if samples.len() != (needed - bodies) / 4 {
        return Err(Refusal::WrongLength);
    }
    put_marker(file, planes);
    put_u16(file, MARKER_LENGTH, table.count);
    put_table(file, table, planes);
    LittleEndian::write_u32_into(samples, &mut file[bodies..]);
    Ok(())
}
