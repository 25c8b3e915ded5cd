// Region rows: left, top, width and height of each region, the call's other arguments, refusal number, result.
use crate::forms::{bool_at, from, has_answer, has_form, number_at};
use refusals::Refusal;
use region::Region;

// The region of the first four numbers.
fn region_in(n: &[i64]) -> Region {
    Region {
        left: number_at(n, 0),
        top: number_at(n, 1),
        width: number_at(n, 2),
        height: number_at(n, 3),
    }
}

pub fn is_empty(n: &[i64]) -> bool {
    has_form(n, b"iiuuub") && has_answer(number_at(n, 4), bool_at(n, 5), region_in(n).is_empty())
}

// Whether a row has a region and this edge of it.
fn has_edge<F: Fn(Region) -> Result<i32, Refusal>>(n: &[i64], edge: F) -> bool
    requires { F.IsAlwaysCallable edge }
{
    has_form(n, b"iiuuui") && has_answer(number_at(n, 4), number_at(n, 5), edge(region_in(n)))
}

pub fn right(n: &[i64]) -> bool {
    has_edge(n, Region::right)
}

pub fn bottom(n: &[i64]) -> bool {
    has_edge(n, Region::bottom)
}

pub fn contains(n: &[i64]) -> bool {
    let answer = region_in(n).contains(region_in(from(n, 4)));
    has_form(n, b"iiuuiiuuub") && has_answer(number_at(n, 8), bool_at(n, 9), answer)
}

pub fn translate(n: &[i64]) -> bool {
    let answer = region_arithmetic::translate(region_in(n), number_at(n, 4), number_at(n, 5));
    has_form(n, b"iiuuiiuiiuu") && has_answer(number_at(n, 6), region_in(from(n, 7)), answer)
}

pub fn intersection(n: &[i64]) -> bool {
    let answer = region_arithmetic::intersection(region_in(n), region_in(from(n, 4)));
    has_form(n, b"iiuuiiuuuiiuu") && has_answer(number_at(n, 8), region_in(from(n, 9)), answer)
}

// Whether a row has a region, a number, and the region that a call makes of both.
fn has_region<F: Fn(Region, u32) -> Result<Region, Refusal>>(n: &[i64], call: F) -> bool
    requires { F.IsAlwaysCallable call }
{
    let answer = call(region_in(n), number_at(n, 4));
    has_form(n, b"iiuuuuiiuu") && has_answer(number_at(n, 5), region_in(from(n, 6)), answer)
}

pub fn pad(n: &[i64]) -> bool {
    has_region(n, region_arithmetic::pad)
}

pub fn downsample(n: &[i64]) -> bool {
    has_region(n, region_arithmetic::downsample)
}

pub fn container_aligned(n: &[i64]) -> bool {
    has_region(n, region_arithmetic::container_aligned)
}
