//! Tables of texts and values from outside, and each call that takes memory once.

use rh_words::{
    Bytes, Inputs, Keyword, LineValues, ListInputs, Name, NameList, OutOfMemory, Place, PlaceWalk,
    Reason, Value, Words, asr, is_header, line_end, print_hex, print_line, print_number,
    read_number, says_nothing, sub, word_at,
};
use std::alloc::Global;
use std::test::Fail;

/// Texts with the numbers that they spell.
const NUMBERS: &[(&[u8], Option<u64>)] = &[
    (b"0", Some(0)),
    (b"007", Some(7)),
    (b"18446744073709551615", Some(18446744073709551615)),
    (b"18446744073709551616", None),
    (b"00000000000000000001", Some(1)),
    (b"000000000000000000001", None),
    (b"99999999999999999999", None),
    (b"", None),
    (b"+1", None),
    (b"-1", None),
    (b"1a", None),
    (b"0x", None),
    (b"0xg", None),
    (b"0XA", None),
    (b"0xA", Some(10)),
    (b"0xff", Some(255)),
    (b"0xffffffffffffffff", Some(18446744073709551615)),
    (b"0x00000000000000001", None),
    (b"1 ", None),
];

/// Whether each text is read as its number, or as none.
fn are_numbers(rows: &[(&[u8], Option<u64>)]) -> bool {
    for (text, want) in rows {
        if read_number(text).ok() != *want {
            return false;
        }
    }
    true
}

#[test]
fn numbers_are_read(rt: HostRuntime) {
    assert!(rt; are_numbers(NUMBERS));
}

/// Texts, and whether each is a name.
const NAMES: &[(&[u8], bool)] = &[
    (b"a", true),
    (b"_", true),
    (b"t_0_1", true),
    (b"Zz9", true),
    (b"abcdefghijklmnopqrstuvwxyz_01234", true),
    (b"abcdefghijklmnopqrstuvwxyz_012345", false),
    (b"", false),
    (b"9a", false),
    (b"a-b", false),
    (b"a b", false),
];

/// Whether the texts are names where it is said so.
fn are_names(rows: &[(&[u8], bool)]) -> bool {
    for (text, want) in rows {
        if Name::read(text).is_some() != *want {
            return false;
        }
    }
    true
}

#[test]
fn names_are_read(rt: HostRuntime) {
    assert!(rt; are_names(NAMES));
}

const REASONS: &[(Reason, u8, &str)] = &[
    (Reason::Byte, 1, "Byte"),
    (Reason::BadName, 4, "Name"),
    (Reason::PlanLimit, 17, "Limit"),
    (Reason::BadWord, 23, "Word"),
    (Reason::FaultTwice, 25, "Twice"),
];

/// Whether each reason has its number and its word.
fn are_told(rows: &[(Reason, u8, &str)]) -> bool {
    for (reason, number, name) in rows {
        if reason.number() != *number || reason.name() != *name {
            return false;
        }
    }
    true
}

#[test]
fn reasons_have_numbers_and_words(rt: HostRuntime) {
    assert!(rt; are_told(REASONS));
}

#[test]
fn words_wrap_and_shift(rt: HostRuntime) {
    assert!(rt;
        sub(3, 5) == 18446744073709551614
            && asr(8, 1) == 4
            && asr(18446744073709551608, 1) == 18446744073709551612
            && asr(9223372036854775808, 63) == 18446744073709551615
    );
}

/// Whether lines and their words are found.
fn are_cut() -> bool {
    line_end(b"ab\ncd", 0) == 2
        && line_end(b"ab\ncd", 3) == 5
        && word_at(b"  let x", 0) == Some((2, 5))
        && word_at(b"  let x", 3) == Some((3, 5))
        && word_at(b"  let  ", 5) == None
}

/// Whether comments and headers are told from other lines.
fn are_told_apart() -> bool {
    says_nothing(b"  #x y")
        && says_nothing(b"   ")
        && !says_nothing(b"x #")
        && is_header(b" rhf  1 ", b"rhf", b"1")
        && !is_header(b"rhf 01", b"rhf", b"1")
}

#[test]
fn lines_are_cut(rt: HostRuntime) {
    assert!(rt; are_cut() && are_told_apart());
}

/// The places of a fault.
const FAULT: [Place; 4] = [
    Place::WordPlace(Keyword::FaultWord),
    Place::NamePlace,
    Place::NumberPlace,
    Place::MaskPlace,
];

/// Whether the values are printed as this.
fn prints_values(alloc: Global, values: &[Value], printed: &[u8]) -> bool {
    let mut text = Bytes::new(alloc);
    print_line(alloc, values, &mut text).is_ok() && text.as_slice() == printed
}

/// Whether the line is read in the places of a fault and of pairs behind it, and printed as this.
fn prints(alloc: Global, line: &[u8], most: usize, printed: &[u8]) -> Option<bool> {
    let places = PlaceWalk::of(&FAULT, &[Place::PairPlace], &[]);
    let mut values = LineValues::new(alloc);
    let kept = values.read(places, most, line).ok()?;
    Some(kept && prints_values(alloc, values.as_slice(), printed))
}

/// Lines with the most values that are kept, what is printed of them, and whether it is: none where the line is not in its places.
const FAULT_LINES: &[(&[u8], usize, &[u8], Option<bool>)] = &[
    (
        b"fault  a 007 255 0x1:2 ",
        5,
        b"fault a 7 0xff 1:2",
        Some(true),
    ),
    (b"fault a 7 0xFF", 9, b"fault a 7 0xff", Some(true)),
    (b"fault a 7 0xFF 1:2", 4, b"", Some(false)),
    (b"fault a 7 0xFF 1:2 x", 9, b"", None),
    (b"fault a 7", 9, b"", None),
    (b"fauld a 7 1", 9, b"", None),
];

/// Whether the line of each row is printed as it says.
fn are_printed(alloc: Global, rows: &[(&[u8], usize, &[u8], Option<bool>)]) -> bool {
    for (line, most, printed, want) in rows {
        if prints(alloc, line, *most, printed) != *want {
            return false;
        }
    }
    true
}

#[test]
fn lines_are_read_in_their_places(rt: HostRuntime) {
    assert!(rt; are_printed(rt.alloc(), FAULT_LINES));
}

/// Whether a number is printed in base 10 and one in base 16.
fn prints_numbers(alloc: Global) -> Result<bool, OutOfMemory> {
    let mut text = Bytes::new(alloc);
    print_number(alloc, &mut text, 1000)?;
    print_hex(alloc, &mut text, 48879)?;
    Ok(text.as_slice() == b"10000xbeef".as_slice())
}

#[test]
fn numbers_are_printed(rt: HostRuntime) -> Result<(), Fail> {
    assert!(rt; prints_numbers(rt.alloc())?);
    Ok(())
}

/// Whether a list of words is kept and copied.
fn keeps_words(alloc: Global) -> Result<bool, OutOfMemory> {
    let mut words = Words::from_slice(alloc, &[1, 2])?;
    words.push(3)?;
    let copy = words.copy(alloc)?;
    Ok(copy == words && copy.as_slice() == [1, 2, 3].as_slice())
}

#[test]
fn words_are_kept(rt: HostRuntime) -> Result<(), Fail> {
    assert!(rt; keeps_words(rt.alloc())?);
    Ok(())
}

/// Whether a list of lists is kept.
fn keeps_inputs(alloc: Global) -> Result<bool, OutOfMemory> {
    let mut inputs = ListInputs::new(alloc);
    inputs.push(Words::from_slice(alloc, &[1, 2])?)?;
    Ok(inputs.count() == 1 && inputs.words(0) == [1, 2].as_slice())
}

#[test]
fn inputs_are_kept(rt: HostRuntime) -> Result<(), Fail> {
    assert!(rt; keeps_inputs(rt.alloc())?);
    Ok(())
}

/// Whether a list of one name is kept.
fn keeps_name(alloc: Global, name: Name) -> Result<bool, OutOfMemory> {
    let mut names = NameList::new(alloc);
    names.push(name)?;
    let kept = names.get(0);
    Ok(names.len() == 1 && kept.bytes() == name.bytes() && kept.key() == name.key())
}

#[test]
fn names_are_kept(rt: HostRuntime) -> Result<(), Fail> {
    let name = Name::read(b"x").ok_or("no name")?;
    assert!(rt; keeps_name(rt.alloc(), name)? && name.bytes() == b"x".as_slice());
    Ok(())
}
