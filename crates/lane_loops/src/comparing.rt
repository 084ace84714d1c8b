//! Comparisons of texts lane by lane.
ghost use Rattle.std.specs.Prelude.{◌≡◌, ◌<◌, length, All};
ghost use Rattle.std.specs.Ordering.{nat_cmp};
ghost use Rattle.std.specs.Cmp.Lexicographic.{slice_cmp};
ghost use Rattle.meaning.specs.Operators.{test};
ghost use Rattle.lane_loops.specs.Lanes.{AreLanes, AreLanesAt, compared_text_bit, compared_text_to_bit};

use meaning::ComparisonOperator;

/// Whether a comparison holds of two texts, byte by byte.
#[inline(always)]
fn holds_of_texts(op: ComparisonOperator, left: &[u8], right: &[u8]) -> bool
    ensures { result ≡ test op (slice_cmp nat_cmp left.now right.now) }
{
    match op {
        ComparisonOperator::Equal => left == right,
        ComparisonOperator::NotEqual => left != right,
        ComparisonOperator::Less => left.cmp(right).is_lt(),
        ComparisonOperator::LessOrEqual => left.cmp(right).is_le(),
        ComparisonOperator::Greater => left.cmp(right).is_gt(),
        ComparisonOperator::GreaterOrEqual => left.cmp(right).is_ge(),
    }
}

#[inline(always)]
fn text_bit_at(op: ComparisonOperator, left: &[&[u8]], right: &[&[u8]], lane: usize) -> u8
    requires left { lane < length left.now }
    requires right { lane < length right.now }
    ensures { result ≡ compared_text_bit op left.now right.now lane }
{
    u8::from(holds_of_texts(op, left[lane], right[lane]))
}

/// 1 in each lane where the comparison of the bytes holds, else 0.
pub fn compare_texts(op: ComparisonOperator, left: &[&[u8]], right: &[&[u8]], out: &mut [u8])
    requires left { length left.now ≡ length out.old }
    requires right { length right.now ≡ length out.old }
    ensures { AreLanes 0 (length out.old) (compared_text_bit op left.now right.now) out.new }
{
    for i in 0..out.len() {
        out[i] = text_bit_at(op, left, right, i);
    }
}

#[inline(always)]
fn text_bit_beside(op: ComparisonOperator, left: &[&[u8]], lane: usize, right: &[u8]) -> u8
    requires { lane < length left.now }
    ensures { result ≡ compared_text_to_bit op left.now right.now lane }
{
    u8::from(holds_of_texts(op, left[lane], right))
}

#[inline(always)]
fn compare_texts_to_by(op: ComparisonOperator, left: &[&[u8]], right: &[u8], out: &mut [u8])
    requires { length left.now ≡ length out.old }
    ensures { AreLanes 0 (length out.old) (compared_text_to_bit op left.now right.now) out.new }
{
    for i in 0..out.len() {
        out[i] = text_bit_beside(op, left, i, right);
    }
}

/// 1 in each lane where the comparison of the bytes with those of the text holds, else 0.
pub fn compare_texts_to(op: ComparisonOperator, left: &[&[u8]], right: &[u8], out: &mut [u8])
    requires { length left.now ≡ length out.old }
    ensures { AreLanes 0 (length out.old) (compared_text_to_bit op left.now right.now) out.new }
{
    match op {
        ComparisonOperator::Equal => compare_texts_to_by(
            ComparisonOperator::Equal,
            left,
            right,
            out,
        ),
        ComparisonOperator::NotEqual => compare_texts_to_by(
            ComparisonOperator::NotEqual,
            left,
            right,
            out,
        ),
        ComparisonOperator::Less => compare_texts_to_by(ComparisonOperator::Less, left, right, out),
        ComparisonOperator::LessOrEqual => compare_texts_to_by(
            ComparisonOperator::LessOrEqual,
            left,
            right,
            out,
        ),
        ComparisonOperator::Greater => compare_texts_to_by(
            ComparisonOperator::Greater,
            left,
            right,
            out,
        ),
        ComparisonOperator::GreaterOrEqual => compare_texts_to_by(
            ComparisonOperator::GreaterOrEqual,
            left,
            right,
            out,
        ),
    }
}

/// The same in the lanes at these positions. What stands in the other lanes is open.
pub fn compare_texts_to_at(
    op: ComparisonOperator,
    left: &[&[u8]],
    right: &[u8],
    positions: &[u32],
    out: &mut [u8],
)
    requires long { length left.now ≡ length out.old }
    requires within { All (λ p. p < length out.old) positions.now }
    ensures { AreLanesAt 0 positions.now (compared_text_to_bit op left.now right.now) out.new }
{
    for position in positions {
        let position = *position as usize;
        out[position] = text_bit_beside(op, left, position, right);
    }
}
