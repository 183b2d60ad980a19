//! Steps against values worked by hand or by a program in another language, and against a loop over single words. Memory is ample.

ghost use Rattle.std.specs.Prelude.{◌≡◌, ◌≤◌, length};
ghost use Rattle.rh_stencil.specs.Grids.{FitsGrid};

use rh_stencil::{conserves1, conserves2, flux, step1, step2};
use std::alloc::Global;

#[test]
fn fluxes_have_the_sign_of_the_difference(rt: HostRuntime) {
    assert!(rt; flux(0, 8, 1, 1) == 18446744073709551612 && flux(8, 0, 1, 1) == 4);
    assert!(rt; flux(0, 1, 1, 63) == 18446744073709551615 && flux(1, 0, 1, 63) == 0);
}

/// Whether the line `m` has these words after its step, and they pass its check.
fn steps_line(
    alloc: Global,
    l: &[u64],
    m: &[u64],
    r: &[u64],
    k: u64,
    s: u32,
    expected: &[u64],
) -> bool {
    if l.is_empty() || m.is_empty() || r.is_empty() || s > 63 || expected.len() != m.len() {
        return false;
    }
    let Ok(stepped) = step1(alloc, l, m, r, k, s) else {
        return false;
    };
    stepped.as_slice() == expected && conserves1(expected, l, m, r, k, s)
}

/// A line between two others, the factor and the shift of its step, and the words after it.
type LineRow<'a> = (&'a [u64], &'a [u64], &'a [u64], u64, u32, &'a [u64]);

const LINES: &[LineRow<'static>] = &[
    (&[0], &[8, 0], &[0], 1, 1, &[0, 4]),
    (&[5], &[7], &[9], 18446744073709551615, 63, &[7]),
    (
        &[1, 2],
        &[3, 5, 8, 13, 21, 34, 55, 89, 144],
        &[233, 377],
        1,
        2,
        &[3, 5, 9, 13, 23, 36, 58, 94, 153],
    ),
    (
        &[7, 18446744073709551615],
        &[5, 18446744073709551610, 9223372036854775808, 9, 0, 12],
        &[18446744073709551614, 3],
        3,
        2,
        &[
            18446744073709551608,
            16140901064495857671,
            9223372036854775810,
            2305843009213693948,
            15,
            18446744073709551609,
        ],
    ),
];

/// Whether the line of each row has its words after its step.
fn steps_lines(alloc: Global, rows: &[LineRow<'_>]) -> bool {
    for (l, m, r, k, s, expected) in rows {
        if !steps_line(alloc, l, m, r, *k, *s, expected) {
            return false;
        }
    }
    true
}

#[test]
fn lines_have_these_words_after_a_step(rt: HostRuntime) {
    assert!(rt; steps_lines(rt.alloc(), LINES));
    assert!(rt; !conserves1(&[0, 5], &[0], &[8, 0], &[0], 1, 1));
}

/// Whether the grid `m` between the sides on its north, south, west and east has these words after its step, and they pass its check.
fn steps_grid(
    alloc: Global,
    sides: [&[u64]; 4],
    m: &[u64],
    cols: u32,
    k: u64,
    s: u32,
    expected: &[u64],
) -> bool {
    let [north, south, west, east] = sides;
    let width = cols as usize;
    if width == 0 || west.is_empty() || s > 63 || expected.len() != m.len() {
        return false;
    }
    if north.len() != width || south.len() != width || east.len() != west.len() {
        return false;
    }
    if m.len() / width != west.len() || m.len() % width != 0 {
        return false;
    }
    steps_fitting(alloc, north, south, west, east, m, cols, k, s, expected)
}

/// Whether the grid has these words after its step, and they pass its check.
fn steps_fitting(
    alloc: Global,
    north: &[u64],
    south: &[u64],
    west: &[u64],
    east: &[u64],
    m: &[u64],
    cols: u32,
    k: u64,
    s: u32,
    expected: &[u64],
) -> bool
    requires fits { FitsGrid north.now south.now west.now east.now m.now cols }
    requires same { length expected.now ≡ length m.now }
    requires shift { s ≤ 63 }
{
    let Ok(stepped) = step2(alloc, north, south, west, east, m, cols, k, s) else {
        return false;
    };
    stepped.as_slice() == expected && conserves2(expected, north, south, west, east, m, cols, k, s)
}

/// Whether a grid of one row and one of one column step so.
fn steps_small_grids(alloc: Global) -> bool {
    steps_grid(
        alloc,
        [&[8, 0], &[8, 0], &[8], &[0]],
        &[8, 0],
        2,
        1,
        1,
        &[4, 4],
    ) && steps_grid(
        alloc,
        [&[3], &[4], &[5, 6], &[7, 8]],
        &[10, 20],
        1,
        1,
        1,
        &[7, 18446744073709551610],
    )
}

#[test]
fn small_grids_have_these_words_after_a_step(rt: HostRuntime) {
    assert!(rt; steps_small_grids(rt.alloc()));
    assert!(rt; !conserves2(&[4, 5], &[8, 0], &[8, 0], &[8], &[0], &[8, 0], 2, 1, 1));
}

#[test]
fn a_grid_of_three_rows_has_these_words_after_a_step(rt: HostRuntime) {
    let sides: [&[u64]; 4] = [
        &[1, 2, 3, 4, 5],
        &[50, 40, 30, 20, 10],
        &[100, 200, 300],
        &[7, 18446744073709551609, 77],
    ];
    let m = [
        10,
        20,
        30,
        40,
        50,
        9,
        8,
        7,
        6,
        5,
        18446744073709551615,
        18446744073709551614,
        9223372036854775808,
        3,
        12,
    ];
    let rows: [(u64, u32, [u64; 15]); 2] = [
        (
            1,
            1,
            [
                55,
                5,
                5,
                5,
                18446744073709551595,
                99,
                9,
                4611686018427387919,
                22,
                25,
                180,
                13835058055282163737,
                19,
                4611686018427387920,
                35,
            ],
        ),
        (
            3,
            2,
            [
                78,
                18446744073709551613,
                18446744073709551608,
                18446744073709551604,
                18446744073709551559,
                145,
                10,
                2305843009213693971,
                29,
                35,
                270,
                16140901064495857703,
                4611686018427387933,
                2305843009213693974,
                47,
            ],
        ),
    ];
    for (k, s, expected) in rows {
        assert!(rt; steps_grid(rt.alloc(), sides, &m, 5, k, s, &expected));
    }
}

/// A flux by the signed shift of the language.
fn signed_flux(l: u64, r: u64, k: u64, s: u32) -> u64
    requires { s ≤ 63 }
{
    (k.wrapping_mul(l.wrapping_sub(r)).cast_signed() >> s).cast_unsigned()
}

/// Whether the step of the line `m` between two words is that of a loop over single words.
fn is_word_by_word(alloc: Global, before: u64, m: &[u64], after: u64, k: u64, s: u32) -> bool {
    if m.is_empty() || s > 63 {
        return false;
    }
    let Ok(stepped) = step1(alloc, &[5, before], m, &[after, 11], k, s) else {
        return false;
    };
    are_word_by_word(stepped.as_slice(), before, m, after, k, s)
}

/// Whether these are the words of a step of the line `m` by a loop over single words.
fn are_word_by_word(words: &[u64], before: u64, m: &[u64], after: u64, k: u64, s: u32) -> bool
    requires { s ≤ 63 }
{
    if words.len() != m.len() {
        return false;
    }
    for at in 0..m.len() {
        let left = if at == 0 { before } else { m[at - 1] };
        let right = if at + 1 < m.len() { m[at + 1] } else { after };
        let into = signed_flux(left, m[at], k, s);
        let from = signed_flux(m[at], right, k, s);
        if words[at] != m[at].wrapping_add(into).wrapping_sub(from) {
            return false;
        }
    }
    true
}

/// Words without a pattern, about half of them negative.
fn scattered() -> [u64; 70] {
    let mut words = [0; 70];
    let mut word: u64 = 1;
    for place in words.iter_mut() {
        word = word
            .wrapping_mul(6364136223846793005)
            .wrapping_add(1442695040888963407);
        *place = word;
    }
    words
}

#[test]
fn each_length_is_stepped_word_by_word(rt: HostRuntime) {
    let words = scattered();
    for n in 1..71 {
        assert!(rt; is_word_by_word(rt.alloc(), 7, &words[..n], 9, 1, 2));
        assert!(rt; is_word_by_word(rt.alloc(), 7, &words[..n], 9, 6148914691236517205, 3));
    }
}
