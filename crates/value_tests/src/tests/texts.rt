//! Texts, their parts, and code points. Go specification, "String types" and "Conversions to and from a string type".

use go_value::{
    Fault, MAX_TEXT, check_index, concat, decode_rune, push_rune, text_of_int, text_slice,
};
use std::test::Fail;
use value_fixtures::{bytes, settled, sound};

/// U+FFFD
const BAD: &[u8] = b"\xef\xbf\xbd";

/// An integer, and the bytes of its code point.
const RUNES: &[(i128, &[u8])] = &[
    (0, b"\x00"),
    (0x61, b"a"),
    (0x7f, b"\x7f"),
    (0x80, b"\xc2\x80"),
    (0x7ff, b"\xdf\xbf"),
    (0x800, b"\xe0\xa0\x80"),
    (0xd7ff, b"\xed\x9f\xbf"),
    (0xd800, BAD),
    (0xdfff, BAD),
    (0xe000, b"\xee\x80\x80"),
    (0xffff, b"\xef\xbf\xbf"),
    (0x10000, b"\xf0\x90\x80\x80"),
    (0x10ffff, b"\xf4\x8f\xbf\xbf"),
    (0x110000, BAD),
    (0x1_0000_0061, BAD),
    (-1, BAD),
];

#[test]
fn code_points_have_bytes(rt: HostRuntime) -> Result<(), Fail> {
    for (value, given) in RUNES {
        let text = text_of_int(rt.alloc(), *value)?;
        assert_eq!(rt; text.as_slice(), *given, "{value}");
        let mut text = Vec::new(rt.alloc());
        push_rune(&mut text, *value)?;
        assert_eq!(rt; text.as_slice(), *given, "{value}");
    }
    Ok(())
}

/// Bytes, a place, the code point there, and how many bytes it has.
const DECODED: &[(&[u8], usize, u32, u8)] = &[
    (b"ab", 1, 0x62, 1),
    (b"\xc3\xa9", 0, 0xe9, 2),
    (b"\xc3\xa9", 1, 0xfffd, 1),
    (b"\xe2\x82\xac!", 0, 0x20ac, 3),
    (b"\xe2\x82", 0, 0xfffd, 1),
    (b"\xf4\x8f\xbf\xbf", 0, 0x10ffff, 4),
    (b"\xf4\x90\x80\x80", 0, 0xfffd, 1),
    (b"\xc0\x80", 0, 0xfffd, 1),
    (b"\xe0\x80\x80", 0, 0xfffd, 1),
    (b"\xed\xa0\x80", 0, 0xfffd, 1),
    (b"\xff", 0, 0xfffd, 1),
    (b"\xef\xbf\xbd", 0, 0xfffd, 3),
];

#[test]
fn code_points_are_decoded(rt: HostRuntime) -> Result<(), Fail> {
    for (text, at, rune, width) in DECODED {
        assert!(rt; *at < text.len());
        assert_eq!(rt; decode_rune(text, *at), (*rune, *width), "{text:?}");
    }
    Ok(())
}

/// An index, a length, and the place of the element where there is one.
const INDICES: &[(i128, u64, Option<u64>)] = &[
    (0, 1, Some(0)),
    (4, 5, Some(4)),
    (5, 5, None),
    (-1, 5, None),
    (0, 0, None),
    (i128::MAX, u64::MAX, None),
];

/// The bounds of a part of `hello`, and the part.
const PARTS: &[(i128, i128, Result<&str, Fault>)] = &[
    (1, 3, Ok("el")),
    (0, 5, Ok("hello")),
    (0, 0, Ok("")),
    (5, 5, Ok("")),
    (3, 2, Err(Fault::SliceBounds)),
    (-1, 2, Err(Fault::SliceBounds)),
    (0, 6, Err(Fault::SliceBounds)),
    (6, 6, Err(Fault::SliceBounds)),
];

#[test]
fn parts_lie_within(rt: HostRuntime) -> Result<(), Fail> {
    for (index, len, place) in INDICES {
        let (index, len) = (*index, *len);
        let wanted = place.ok_or(Fault::Index { index, len });
        assert!(rt; check_index(index, len) == wanted, "{index} {len}");
    }
    let (front, rest) = (bytes(rt.alloc(), b"hel")?, bytes(rt.alloc(), b"lo")?);
    let hello = sound(concat(rt.alloc(), &front, &rest))?;
    assert_eq!(rt; hello.as_slice(), b"hello".as_slice());
    for (low, high, given) in PARTS {
        let found = settled(text_slice(rt.alloc(), &hello, *low, *high))?;
        match (found, given) {
            (Ok(part), Ok(given)) => assert_eq!(rt; part.as_slice(), given.as_bytes()),
            (found, given) => assert!(rt; found.err() == given.err(), "{low} {high}"),
        }
    }
    Ok(())
}

#[test]
fn texts_have_a_limit(rt: HostRuntime) -> Result<(), Fail> {
    let mut long = bytes(rt.alloc(), b"x")?;
    for _ in 0..28 {
        long = sound(concat(rt.alloc(), &long, &long))?;
    }
    assert_eq!(rt; long.len(), MAX_TEXT);
    assert_eq!(rt; MAX_TEXT, 268_435_456);
    let none = bytes(rt.alloc(), b"")?;
    assert_eq!(rt; sound(concat(rt.alloc(), &none, &long))?.len(), MAX_TEXT);
    let one = bytes(rt.alloc(), b"y")?;
    let longer = settled(concat(rt.alloc(), &long, &one))?;
    assert!(rt; longer.err() == Some(Fault::TextTooLong));
    Ok(())
}
