// Mirror rows: offset, length, refusal number, mirrored index. Group size rows: the frame's fields, refusal number,
// sizes. Block split rows: block, group size shift, refusal number, group, inner cell.
use crate::forms::{from, has_answer, has_form, number_at};
use frame::{Frame, GroupSizes};
use refusals::number_of;

pub fn mirror(n: &[i64]) -> bool {
    let answer = mirror::mirror(number_at(n, 0), number_at(n, 1));
    has_form(n, b"szuz") && has_answer(number_at(n, 2), number_at(n, 3), answer)
}

fn frame_in(n: &[i64]) -> Frame {
    Frame {
        width: number_at(n, 0),
        height: number_at(n, 1),
        upsampling: number_at(n, 2),
        lf_level: number_at(n, 3),
        group_size_shift: number_at(n, 4),
    }
}

fn has_sizes(n: &[i64], s: GroupSizes) -> bool {
    let sizes = [
        s.sample_width,
        s.sample_height,
        s.group_dim,
        s.group_shift,
        s.groups_per_row,
        s.groups_per_column,
        s.num_groups,
    ];
    n == sizes.map(i64::from).as_slice()
}

pub fn group_sizes(n: &[i64]) -> bool {
    let answer = frame::group_sizes(frame_in(n));
    has_form(n, b"uuuuuuuuuuuuu")
        && number_at::<u32>(n, 5) == number_of(answer.map(|_| ()))
        && has_sizes(from(n, 6), answer.unwrap_or_default())
}

pub fn split_block(n: &[i64]) -> bool {
    let answer = frame::split_block(number_at(n, 0), number_at(n, 1));
    has_form(n, b"uuuuu")
        && has_answer(
            number_at(n, 2),
            (number_at(n, 3), number_at(n, 4)),
            answer.map(|split| (split.group, split.inner)),
        )
}
