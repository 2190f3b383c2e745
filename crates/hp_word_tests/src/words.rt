//! Values from outside: worked by a program whose numbers have any size and whose shifts move one bit at a time.

use Code::{Equal, Greater, Less};
use Number::{BadForm, TooLarge, Value};
use Shift::{Asl, Asr, Csl, Csr, Lsl, Lsr};
use hp_word::{
    Arith, Code, Number, Quotient, Shift, Wide, add, cmp, dadd, dcmp, decimal_text, deposit, div,
    dneg, dsub, extract, ladd, lcmp, ldiv, lmpy, lsub, mpy, neg, octal_text, read_number,
    shift_word, sub,
};

/// What the tables have of a word's result: value, carry, overflow, code.
type Parts = (u16, bool, bool, Code);

/// The same of a double's.
type WideParts = (u32, bool, bool, Code);

/// A division's: quotient, remainder, overflow; none by zero.
type QuotientParts = Option<(u16, u16, bool)>;

/// A word's result as the tables have it.
fn parts(r: Arith) -> Parts {
    (r.value, r.carry, r.overflow, r.code)
}

/// A double's.
fn wide_parts(r: Wide) -> WideParts {
    (r.value, r.carry, r.overflow, r.code)
}

/// A division's.
fn quotient_parts(r: Option<Quotient>) -> QuotientParts {
    let q = r?;
    Some((q.quotient, q.remainder, q.overflow))
}

/// Two words, and the first with the second added and subtracted.
type Sums = (u16, u16, Parts, Parts);

static SUMS: [Sums; 12] = [
    (0, 0, (0, false, false, Equal), (0, true, false, Equal)),
    (
        1,
        2,
        (3, false, false, Greater),
        (65535, false, false, Less),
    ),
    (
        32767,
        1,
        (32768, false, true, Less),
        (32766, true, false, Greater),
    ),
    (
        65535,
        1,
        (0, true, false, Equal),
        (65534, true, false, Less),
    ),
    (
        0,
        1,
        (1, false, false, Greater),
        (65535, false, false, Less),
    ),
    (
        32768,
        1,
        (32769, false, false, Less),
        (32767, true, true, Greater),
    ),
    (
        32768,
        32768,
        (0, true, true, Equal),
        (0, true, false, Equal),
    ),
    (
        32768,
        65535,
        (32767, true, true, Greater),
        (32769, false, false, Less),
    ),
    (
        32767,
        65535,
        (32766, true, false, Greater),
        (32768, false, true, Less),
    ),
    (
        0,
        32768,
        (32768, false, false, Less),
        (32768, false, true, Less),
    ),
    (
        32767,
        32767,
        (65534, false, true, Less),
        (0, true, false, Equal),
    ),
    (
        65535,
        65535,
        (65534, true, false, Less),
        (0, true, false, Equal),
    ),
];

/// Whether two words have that sum and that difference.
fn has_sums(&(b, a, sum, difference): &Sums) -> bool {
    parts(add(b, a)) == sum && parts(sub(b, a)) == difference
}

#[test]
fn sums_and_differences_with_their_flags(rt: HostRuntime) {
    for row in &SUMS {
        let (b, a, ..) = row;
        assert!(rt; has_sums(row), "{b} and {a}");
    }
}

/// The same of words without a sign.
static LOGICAL_SUMS: [Sums; 6] = [
    (0, 0, (0, false, false, Equal), (0, true, false, Equal)),
    (
        1,
        2,
        (3, false, false, Greater),
        (65535, false, false, Less),
    ),
    (
        65535,
        1,
        (0, true, false, Equal),
        (65534, true, false, Less),
    ),
    (
        32768,
        32768,
        (0, true, false, Equal),
        (0, true, false, Equal),
    ),
    (
        65535,
        65535,
        (65534, true, false, Less),
        (0, true, false, Equal),
    ),
    (
        1,
        65535,
        (0, true, false, Equal),
        (2, false, false, Greater),
    ),
];

/// Whether they have them without a sign.
fn has_logical_sums(&(b, a, sum, difference): &Sums) -> bool {
    parts(ladd(b, a)) == sum && parts(lsub(b, a)) == difference
}

#[test]
fn logical_sums_and_differences(rt: HostRuntime) {
    for row in &LOGICAL_SUMS {
        let (b, a, ..) = row;
        assert!(rt; has_logical_sums(row), "{b} and {a}");
    }
}

/// Two words; their product, and the double that is it of words without a sign.
type Products = (u16, u16, Parts, WideParts);

static PRODUCTS: [Products; 11] = [
    (0, 65535, (0, false, false, Equal), (0, false, false, Equal)),
    (
        3,
        5,
        (15, false, false, Greater),
        (15, false, false, Greater),
    ),
    (
        256,
        256,
        (0, false, true, Equal),
        (65536, true, false, Greater),
    ),
    (
        255,
        257,
        (65535, false, true, Less),
        (65535, false, false, Greater),
    ),
    (
        181,
        181,
        (32761, false, false, Greater),
        (32761, false, false, Greater),
    ),
    (
        182,
        181,
        (32942, false, true, Less),
        (32942, false, false, Greater),
    ),
    (
        32768,
        65535,
        (32768, false, true, Less),
        (2147450880, true, false, Greater),
    ),
    (
        32767,
        32767,
        (1, false, true, Greater),
        (1073676289, true, false, Greater),
    ),
    (
        65535,
        65535,
        (1, false, false, Greater),
        (4294836225, true, false, Less),
    ),
    (
        32768,
        32768,
        (0, false, true, Equal),
        (1073741824, true, false, Greater),
    ),
    (
        300,
        65336,
        (5536, false, true, Greater),
        (19600800, true, false, Greater),
    ),
];

/// Whether two words have those products.
fn has_products(&(b, a, integer, logical): &Products) -> bool {
    parts(mpy(b, a)) == integer && wide_parts(lmpy(b, a)) == logical
}

#[test]
fn products(rt: HostRuntime) {
    for row in &PRODUCTS {
        let (b, a, ..) = row;
        assert!(rt; has_products(row), "{b} * {a}");
    }
}

/// Words with their opposites.
static OPPOSITES: [(u16, Parts); 6] = [
    (0, (0, false, false, Equal)),
    (1, (65535, false, false, Less)),
    (32767, (32769, false, false, Less)),
    (32768, (32768, false, true, Less)),
    (32769, (32767, false, false, Greater)),
    (65535, (1, false, false, Greater)),
];

#[test]
fn opposites(rt: HostRuntime) {
    for (a, opposite) in &OPPOSITES {
        assert!(rt; parts(neg(*a)) == *opposite, "-{a}");
    }
}

/// Words with their quotients.
static QUOTIENTS: [(u16, u16, QuotientParts); 14] = [
    (7, 2, Some((3, 1, false))),
    (65529, 2, Some((65533, 65535, false))),
    (7, 65534, Some((65533, 1, false))),
    (65529, 65534, Some((3, 65535, false))),
    (1, 3, Some((0, 1, false))),
    (65535, 3, Some((0, 65535, false))),
    (32768, 65535, Some((32768, 0, true))),
    (32768, 1, Some((32768, 0, false))),
    (32768, 2, Some((49152, 0, false))),
    (32767, 65535, Some((32769, 0, false))),
    (32767, 32768, Some((0, 32767, false))),
    (0, 5, Some((0, 0, false))),
    (5, 0, None),
    (0, 0, None),
];

#[test]
fn quotients_round_toward_zero(rt: HostRuntime) {
    for (b, a, quotient) in &QUOTIENTS {
        assert!(rt; quotient_parts(div(*b, *a)) == *quotient, "{b} / {a}");
    }
}

/// Doubles and words without a sign, with their quotients.
static LOGICAL_QUOTIENTS: [(u32, u16, QuotientParts); 10] = [
    (7, 2, Some((3, 1, false))),
    (65536, 3, Some((21845, 1, false))),
    (131072, 2, Some((0, 0, false))),
    (4294967295, 1, Some((65535, 0, false))),
    (4294967295, 65535, Some((1, 0, false))),
    (4294901760, 65535, Some((0, 0, false))),
    (196613, 2, Some((32770, 1, false))),
    (65535, 65535, Some((1, 0, false))),
    (0, 9, Some((0, 0, false))),
    (9, 0, None),
];

#[test]
fn logical_quotients(rt: HostRuntime) {
    for (b, a, quotient) in &LOGICAL_QUOTIENTS {
        assert!(rt; quotient_parts(ldiv(*b, *a)) == *quotient, "{b} / {a}");
    }
}

/// Two doubles, and the first with the second added and subtracted.
type WideSums = (u32, u32, WideParts, WideParts);

static WIDE_SUMS: [WideSums; 10] = [
    (0, 0, (0, false, false, Equal), (0, true, false, Equal)),
    (
        1,
        2,
        (3, false, false, Greater),
        (4294967295, false, false, Less),
    ),
    (
        2147483647,
        1,
        (2147483648, false, true, Less),
        (2147483646, true, false, Greater),
    ),
    (
        4294967295,
        1,
        (0, true, false, Equal),
        (4294967294, true, false, Less),
    ),
    (
        2147483648,
        2147483648,
        (0, true, true, Equal),
        (0, true, false, Equal),
    ),
    (
        2147483648,
        4294967295,
        (2147483647, true, true, Greater),
        (2147483649, false, false, Less),
    ),
    (
        2147483648,
        1,
        (2147483649, false, false, Less),
        (2147483647, true, true, Greater),
    ),
    (
        0,
        2147483648,
        (2147483648, false, false, Less),
        (2147483648, false, true, Less),
    ),
    (
        65535,
        1,
        (65536, false, false, Greater),
        (65534, true, false, Greater),
    ),
    (
        4294967295,
        4294967295,
        (4294967294, true, false, Less),
        (0, true, false, Equal),
    ),
];

/// Whether two doubles have that sum and that difference.
fn has_wide_sums(&(b, a, sum, difference): &WideSums) -> bool {
    wide_parts(dadd(b, a)) == sum && wide_parts(dsub(b, a)) == difference
}

#[test]
fn sums_and_differences_of_doubles(rt: HostRuntime) {
    for row in &WIDE_SUMS {
        let (b, a, ..) = row;
        assert!(rt; has_wide_sums(row), "{b} and {a}");
    }
}

/// Doubles with their opposites.
static WIDE_OPPOSITES: [(u32, WideParts); 6] = [
    (0, (0, false, false, Equal)),
    (1, (4294967295, false, false, Less)),
    (2147483647, (2147483649, false, false, Less)),
    (2147483648, (2147483648, false, true, Less)),
    (2147483649, (2147483647, false, false, Greater)),
    (4294967295, (1, false, false, Greater)),
];

#[test]
fn opposites_of_doubles(rt: HostRuntime) {
    for (a, opposite) in &WIDE_OPPOSITES {
        assert!(rt; wide_parts(dneg(*a)) == *opposite, "-{a}");
    }
}

/// Two words; how they compare with a sign and without.
type Compared = (u16, u16, Code, Code);

static COMPARED: [Compared; 7] = [
    (0, 0, Equal, Equal),
    (1, 0, Greater, Greater),
    (0, 1, Less, Less),
    (65535, 0, Less, Greater),
    (32768, 32767, Less, Greater),
    (32767, 32768, Greater, Less),
    (65535, 65534, Greater, Greater),
];

/// Whether two words compare so.
fn compare_so(&(b, a, signed, unsigned): &Compared) -> bool {
    cmp(b, a) == signed && lcmp(b, a) == unsigned
}

#[test]
fn comparisons(rt: HostRuntime) {
    for row in &COMPARED {
        let (b, a, ..) = row;
        assert!(rt; compare_so(row), "{b} against {a}");
    }
}

/// Two doubles, and how they compare.
static WIDE_COMPARED: [(u32, u32, Code); 5] = [
    (0, 0, Equal),
    (2147483648, 2147483647, Less),
    (2147483647, 2147483648, Greater),
    (4294967295, 0, Less),
    (65536, 65535, Greater),
];

#[test]
fn comparisons_of_doubles(rt: HostRuntime) {
    for (b, a, code) in &WIDE_COMPARED {
        assert!(rt; dcmp(*b, *a) == *code, "{b} against {a}");
    }
}

/// By how many bits the words are shifted.
static COUNTS: [u8; 7] = [0, 1, 14, 15, 16, 17, 63];

/// A kind of shift, and a word with what it is when it is shifted by each of the counts.
type Shifted = (Shift, u16, [u16; 7]);

static SHIFTED: [Shifted; 12] = [
    (
        Asl,
        0o123456,
        [
            0o123456, 0o147134, 0o100000, 0o100000, 0o100000, 0o100000, 0o100000,
        ],
    ),
    (
        Asl,
        0o053421,
        [
            0o053421, 0o027042, 0o040000, 0o000000, 0o000000, 0o000000, 0o000000,
        ],
    ),
    (
        Asr,
        0o123456,
        [
            0o123456, 0o151627, 0o177776, 0o177777, 0o177777, 0o177777, 0o177777,
        ],
    ),
    (
        Asr,
        0o053421,
        [
            0o053421, 0o025610, 0o000001, 0o000000, 0o000000, 0o000000, 0o000000,
        ],
    ),
    (
        Lsl,
        0o123456,
        [
            0o123456, 0o047134, 0o100000, 0o000000, 0o000000, 0o000000, 0o000000,
        ],
    ),
    (
        Lsl,
        0o053421,
        [
            0o053421, 0o127042, 0o040000, 0o100000, 0o000000, 0o000000, 0o000000,
        ],
    ),
    (
        Lsr,
        0o123456,
        [
            0o123456, 0o051627, 0o000002, 0o000001, 0o000000, 0o000000, 0o000000,
        ],
    ),
    (
        Lsr,
        0o053421,
        [
            0o053421, 0o025610, 0o000001, 0o000000, 0o000000, 0o000000, 0o000000,
        ],
    ),
    (
        Csl,
        0o123456,
        [
            0o123456, 0o047135, 0o124713, 0o051627, 0o123456, 0o047135, 0o051627,
        ],
    ),
    (
        Csl,
        0o053421,
        [
            0o053421, 0o127042, 0o052704, 0o125610, 0o053421, 0o127042, 0o125610,
        ],
    ),
    (
        Csr,
        0o123456,
        [
            0o123456, 0o051627, 0o116272, 0o047135, 0o123456, 0o051627, 0o047135,
        ],
    ),
    (
        Csr,
        0o053421,
        [
            0o053421, 0o125610, 0o056105, 0o127042, 0o053421, 0o125610, 0o127042,
        ],
    ),
];

/// Whether a word shifted by each of the counts is that.
fn is_shifted((kind, w, wants): &Shifted) -> bool {
    for (&n, &want) in COUNTS.iter().zip(wants) {
        if n > 63 || shift_word(*kind, *w, n) != want {
            return false;
        }
    }
    true
}

#[test]
fn shifts_of_all_kinds(rt: HostRuntime) {
    for row in &SHIFTED {
        let (kind, w, _) = row;
        assert!(rt; is_shifted(row), "{kind:?} {w}");
    }
}

/// A word, the first bit and the length; the field; a value, and the word with it.
type Field = (u16, u8, u8, u16, u16, u16);

static FIELDS: [Field; 7] = [
    (0o123456, 4, 4, 7, 0o000001, 0o120456),
    (0o123456, 0, 1, 1, 0o177776, 0o023456),
    (0o123456, 15, 1, 0, 0o000003, 0o123457),
    (0o123456, 0, 16, 0o123456, 0o000017, 0o000017),
    (0o123456, 1, 15, 0o023456, 0o177777, 0o177777),
    (0o123456, 8, 8, 0o056, 0o177400, 0o123400),
    (0o000000, 7, 3, 0, 0o177775, 0o000500),
];

/// Whether a word has that field, and is that with the value in its place.
fn has_field(&(w, s, n, field, v, with_field): &Field) -> bool {
    n >= 1
        && s <= 16
        && n <= 16 - s
        && extract(w, s, n) == field
        && deposit(w, s, n, v) == with_field
}

#[test]
fn fields_taken_and_put(rt: HostRuntime) {
    for row in &FIELDS {
        let (w, s, n, ..) = row;
        assert!(rt; has_field(row), "{w}.({s}:{n})");
    }
}

/// Numbers at powers of the base, and their texts.
static DECIMALS: [(i32, &str); 25] = [
    (0, "0"),
    (9, "9"),
    (10, "10"),
    (-1, "-1"),
    (-10, "-10"),
    (99, "99"),
    (100, "100"),
    (999, "999"),
    (1000, "1000"),
    (-9999, "-9999"),
    (-10000, "-10000"),
    (-32768, "-32768"),
    (32767, "32767"),
    (99999, "99999"),
    (100000, "100000"),
    (999999, "999999"),
    (1000000, "1000000"),
    (9999999, "9999999"),
    (10000000, "10000000"),
    (99999999, "99999999"),
    (100000000, "100000000"),
    (999999999, "999999999"),
    (1000000000, "1000000000"),
    (2147483647, "2147483647"),
    (-2147483648, "-2147483648"),
];

#[test]
fn decimal_texts(rt: HostRuntime) {
    for (v, text) in &DECIMALS {
        assert!(rt; decimal_text(*v).as_slice() == text.as_bytes(), "{text}");
    }
}

/// A number, how many digits, and the text.
type Octal = (u32, u8, &'static str);

static OCTALS: [Octal; 9] = [
    (0, 1, "0"),
    (7, 1, "7"),
    (8, 6, "000010"),
    (65535, 6, "177777"),
    (65536, 6, "200000"),
    (262144, 6, "000000"),
    (668, 2, "34"),
    (4294967295, 11, "37777777777"),
    (32768, 11, "00000100000"),
];

/// Whether a number with so many digits is that text.
fn is_octal(&(v, digits, text): &Octal) -> bool {
    digits <= 11 && octal_text(v, digits).as_slice() == text.as_bytes()
}

#[test]
fn octal_texts(rt: HostRuntime) {
    for row in &OCTALS {
        let (.., text) = row;
        assert!(rt; is_octal(row), "{text}");
    }
}

/// A text; the number as a word's, and as a double's.
type Read = (&'static str, Number, Number);

static READ: [Read; 35] = [
    ("", Value(0), Value(0)),
    ("0", Value(0), Value(0)),
    ("-0", Value(0), Value(0)),
    ("+9", Value(9), Value(9)),
    ("00000000000000000010", Value(10), Value(10)),
    ("32768", Value(32768), Value(32768)),
    ("65535", Value(65535), Value(65535)),
    ("65536", TooLarge, Value(65536)),
    ("-1", Value(65535), Value(4294967295)),
    ("-32768", Value(32768), Value(4294934528)),
    ("-32769", TooLarge, Value(4294934527)),
    ("2147483647", TooLarge, Value(2147483647)),
    ("2147483648", TooLarge, TooLarge),
    ("-2147483648", TooLarge, Value(2147483648)),
    ("-2147483649", TooLarge, TooLarge),
    ("4294967296", TooLarge, TooLarge),
    ("18446744073709551617", TooLarge, TooLarge),
    ("99999999999999999999999999999999", TooLarge, TooLarge),
    ("%0", Value(0), Value(0)),
    ("%177777", Value(65535), Value(65535)),
    ("%200000", TooLarge, Value(65536)),
    ("%37777777777", TooLarge, Value(4294967295)),
    ("%40000000000", TooLarge, TooLarge),
    ("%18", BadForm, BadForm),
    ("%", BadForm, BadForm),
    ("+", BadForm, BadForm),
    ("-", BadForm, BadForm),
    ("+-1", BadForm, BadForm),
    ("-%1", BadForm, BadForm),
    ("%-1", BadForm, BadForm),
    (" 1", BadForm, BadForm),
    ("1 ", BadForm, BadForm),
    ("999999X", BadForm, BadForm),
    ("1:", BadForm, BadForm),
    ("/1", BadForm, BadForm),
];

/// Whether a text is read as those numbers.
fn is_read(&(text, word, double): &Read) -> bool {
    read_number(text.as_bytes(), false) == word && read_number(text.as_bytes(), true) == double
}

#[test]
fn numbers_in_texts(rt: HostRuntime) {
    for row in &READ {
        let (text, ..) = row;
        assert!(rt; is_read(row), "{text}");
    }
}
