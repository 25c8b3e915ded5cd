// The parts of the formula for one sample of a step of the edge-preserving filter (Specification 11).
#![tactic(auto)]

ghost use Rattle.std.specs.Prelude.{◌≡◌};
ghost use Rattle.planes.specs.Samples.{◌⊘◌};
ghost use Rattle.epf_step.specs.Steps.{positive as positive_of, falloff, weight_by};
ghost use Rattle.epf_step.specs.Steps.{copied as copied_of, border, multiplier as multiplier_of};
ghost use Rattle.epf_step.specs.Bounds.{WeightBounded};

// Steps are 0 to 2.
pub const LAST_STEP: usize = 2;

// NaN and negatives become 0.
// Form: `f32::max` answers 0 for NaN too, but leaves open which of 0 and -0 it answers for -0; the definition has 0.
#[tactic(auto, unfolding(crate::specs::Steps::positive))]
fn positive(x: f32) -> f32
    ensures { result ≡ positive_of x }
{
    if x > 0.0 { x } else { 0.0 }
}

// A neighbour's weight, from its distance and the slope. It is from 0 to 1 if the distance is not negative and the
// slope not positive.
pub fn weight(distance: f32, slope: f32) -> f32
    ensures { (result ≡ weight_by slope distance) × WeightBounded distance slope result }
{
    positive(1.0 + distance * slope)
}

// The slope of a block's weights, without the multiplier.
pub fn slope(sigma: f32) -> f32
    ensures { result ≡ falloff ⊘ sigma }
{
    6.6 * (0.70710677 - 1.0) / sigma
}

// Whether a block's samples are copied. NaN is not below the limit.
#[tactic(auto, unfolding(crate::specs::Steps::copied))]
pub fn copied(sigma: f32, limit: f32) -> bool
    ensures { result ≡ copied_of sigma limit }
{
    sigma < limit
}

// Whether a row or a column is at the border of a block.
#[tactic(auto, unfolding(crate::specs::Steps::border))]
pub fn at_border(p: usize) -> bool
    ensures { result ≡ border p }
{
    p % 8 == 0 || p % 8 == 7
}

// The multiplier M of a sample (Specification 11.5); `edge` is `border_sad_mul`. `row` is the position's y, `col` is
// counted from the filter region's left.
#[tactic(auto, unfolding(crate::specs::Steps::multiplier))]
pub fn multiplier(scale: f32, edge: f32, row: usize, col: usize) -> f32
    ensures { result ≡ multiplier_of scale edge row col }
{
    if at_border(row) || at_border(col) {
        return scale * edge;
    }
    scale
}
