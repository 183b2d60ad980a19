//! Values worked by hand, with ample memory.

use rh_kernels::{
    add_words, count, cut, gen_, join_part, lit, mul_words, scale, shift, sub_words, sum,
};
use rh_words::{OutOfMemory, Words};
use std::alloc::Global;

/// Whether a kernel gave these words.
fn gives(made: Result<Words, OutOfMemory>, want: &[u64]) -> bool {
    match made {
        Ok(words) => words.as_slice() == want,
        Err(OutOfMemory) => false,
    }
}

/// Whether the two parts are joined to these words.
fn joins(alloc: Global, first: &[u64], second: &[u64], want: &[u64]) -> bool {
    let mut joined = Words::new(alloc);
    join_part(alloc, &mut joined, first).is_ok()
        && join_part(alloc, &mut joined, second).is_ok()
        && joined.as_slice() == want
}

/// Whether the kernels that read numbers give these lists.
fn make_lists(alloc: Global) -> bool {
    gives(lit(alloc, &[3, 0, 7]), &[3, 0, 7])
        && gives(gen_(alloc, 3, 0, 1000), &[0, 966, 933])
        && gives(gen_(alloc, 2, 18446744073709551615, 1000), &[681, 0])
        && gives(gen_(alloc, 0, 5, 1), &[])
}

#[test]
fn numbers_make_lists(rt: HostRuntime) {
    assert!(rt; make_lists(rt.alloc()));
}

/// Whether sums, differences and products wrap.
fn wrap(alloc: Global) -> bool {
    gives(
        add_words(alloc, &[1, 18446744073709551615], &[10, 2]),
        &[11, 1],
    ) && gives(
        sub_words(alloc, &[3, 7], &[5, 7]),
        &[18446744073709551614, 0],
    ) && gives(
        mul_words(alloc, &[4294967296, 3], &[4294967297, 5]),
        &[4294967296, 15],
    )
}

/// Whether multiples wrap, and a shift keeps the sign.
fn wrap_by_a_number(alloc: Global) -> bool {
    gives(scale(alloc, &[2, 9223372036854775809], 2), &[4, 2])
        && gives(
            shift(alloc, &[18446744073709551608, 9], 1),
            &[18446744073709551612, 4],
        )
}

#[test]
fn words_wrap(rt: HostRuntime) {
    assert!(rt; wrap(rt.alloc()) && wrap_by_a_number(rt.alloc()));
}

/// Whether lists are cut and joined.
fn are_cut_and_joined(alloc: Global) -> bool {
    gives(cut(alloc, &[5, 6, 7, 8], 1, 2), &[6, 7])
        && gives(cut(alloc, &[5, 6], 2, 0), &[])
        && joins(alloc, &[1, 2], &[3], &[1, 2, 3])
}

#[test]
fn lists_are_cut_joined_and_summed(rt: HostRuntime) {
    assert!(rt; are_cut_and_joined(rt.alloc()));
    assert!(rt; sum(&[18446744073709551615, 2, 3]) == 4 && count(&[0, 4, 0]) == 1);
}
