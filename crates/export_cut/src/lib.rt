// The C boundary of cut files: each function passes its arguments on to one function of the library.
// Form: the C interface has a number, with zeros beside a refusal.
#![tactic(auto)]

ghost use Rattle.std.specs.Prelude.{◌≡◌};
ghost use Rattle.cut_read.specs.Outcome.{count_outcome, region_outcome, ReadOutcome, read_outcome};
ghost use Rattle.cut_write.specs.Outcome.{length_outcome, WriteOutcome, write_outcome};

use cut_file::CutTable;
use cut_read::{CountAnswer, CutAnswer};
use cut_write::LengthAnswer;
use refusals::number_of;

// Returns the number of rectangles in a cut file, after checking all of the file but its samples.
// Numbers, the first that applies in this order: 7 if the file is longer than 16,777,216 bytes; 14 if it ends before
// the marker does; 12 if the first four bytes are neither 4B 43 55 54 (hexadecimal; three planes) nor 4B 43 55 31 (one
// plane); 14 if it ends before the count does; 12 if the count is not 1 to 64; for each entry in turn, 14 if the file
// ends before the entry does, and 13 if a side is outside 1 to 16,384, the area over 16,777,216, or left or top outside
// -1,048,576 to 1,048,576, or if its offset is not the end of what precedes its body; 14 if the file does not end where
// its last body does; 0.
// A refused call returns 0 in every other field.
#[unsafe(no_mangle)]
#[tactic(auto, using(cut_read::proofs::Numbers::count_answer))]
pub extern "C" fn restoration_cut_count(file: &[u8]) -> CountAnswer
    ensures { result ≡ count_outcome file.now }
{
    CountAnswer::from(cut_read::cut_count(file))
}

// Returns the region of rectangle `k`, counted from 0, of a cut file, and the number of planes, 1 or 3.
// Numbers: those of `restoration_cut_count`; then 9 if `k` is not below the number of rectangles. A refused call
// returns 0 in every other field.
#[unsafe(no_mangle)]
#[tactic(auto, using(cut_read::proofs::Numbers::region_answer))]
pub extern "C" fn restoration_cut_region(file: &[u8], k: u32) -> CutAnswer
    ensures { result ≡ region_outcome file.now k }
{
    CutAnswer::from(cut_read::cut_region(file, k))
}

// Returns the region of rectangle `k`, counted from 0, of a cut file, and the number of planes, 1 or 3, and stores its
// samples: the bits of planes x width x height binary32 numbers, plane after plane, row after row.
// Numbers: those of `restoration_cut_region`; then 7 if `samples` does not have exactly that length. A refused call
// returns 0 in every other field and leaves `samples` unchanged.
#[unsafe(no_mangle)]
pub extern "C" fn restoration_read_cut(file: &[u8], k: u32, samples: &mut [u32]) -> CutAnswer
    ensures { ◌≡◌ {A = ReadOutcome} (record { answer = result; samples = samples.new })
        (read_outcome file.now k samples.old) }
{
    CutAnswer::from(cut_read::read_cut(file, k, samples))
}

// Returns the length, in bytes, of the cut file with the first `count` regions of a table and this number of planes.
// Numbers, the first that applies in this order: 12 if the count is not 1 to 64; 4 if one of these regions has a side
// outside 1 to 16,384, an area over 16,777,216, or a left or top outside -1,048,576 to 1,048,576; 7 if `planes` is 1 or
// 3 and the file would be longer than 16,777,216 bytes; 9 if `planes` is not 1 or 3; 0. A refused call returns 0 in
// every other field.
#[unsafe(no_mangle)]
#[tactic(auto, using(cut_write::proofs::Tables::length_answer))]
pub extern "C" fn restoration_cut_length(table: CutTable, planes: u32) -> LengthAnswer
    ensures { result ≡ length_outcome table planes }
{
    LengthAnswer::from(cut_write::cut_length(table, planes))
}

// Writes the cut file with the first `count` regions of a table and their samples: the bits of binary32 numbers,
// rectangle after rectangle, each plane after plane, row after row.
// Numbers, the first that applies in this order: 12 and 4, those of `restoration_cut_length`; 7 if `file` is longer than
// 16,777,216 bytes, or if `planes` is 1 or 3 and the cut file would be longer, or `samples` does not have exactly the
// samples of these rectangles, or `file` exactly the bytes of the cut file; 9 if `planes` is not 1 or 3; 0. A refused
// call leaves `file` unchanged.
#[unsafe(no_mangle)]
pub extern "C" fn restoration_write_cut(
    table: CutTable,
    planes: u32,
    samples: &[u32],
    file: &mut [u8],
) -> u32
    ensures { ◌≡◌ {A = WriteOutcome} (record { number = result; file = file.new })
        (write_outcome table planes samples.now file.old) }
{
    number_of(cut_write::write_cut(table, planes, samples, file))
}
