//! Cells: the words that texts stand for, the faults of other texts, and the texts that are written of words.
use ring_words::{
    CellFault, add, cell_len, isqrt, less, mul, neg, quot, read_cell, rescale, sub, trim_spaces,
    write_cell,
};
use std::alloc::AllocError;
use vocabulary::limits::MOST_FIELD_SCALE;

const MINUS_ONE: u64 = u64::MAX;

/// The words of the largest and of the smallest signed reading.
const MOST: u64 = 9_223_372_036_854_775_807;

const LEAST: u64 = 9_223_372_036_854_775_808;

static READ: [(u32, &str, Result<u64, CellFault>); 68] = [
    (0, "0", Ok(0)),
    (0, "17", Ok(17)),
    (0, "  17 ", Ok(17)),
    (0, "007", Ok(7)),
    (0, "-0", Ok(0)),
    (0, "-1", Ok(MINUS_ONE)),
    (0, "5.0", Ok(5)),
    (0, "-5.000", Ok(18_446_744_073_709_551_611)),
    (0, "9223372036854775807", Ok(MOST)),
    (0, "-9223372036854775808", Ok(LEAST)),
    (0, "00000000000000000000000000000042", Ok(42)),
    (0, "", Err(CellFault::Empty)),
    (0, "   ", Err(CellFault::Empty)),
    (0, "+1", Err(CellFault::BadByte { at: 0 })),
    (0, ".5", Err(CellFault::BadByte { at: 0 })),
    (0, "5.", Err(CellFault::BadByte { at: 2 })),
    (0, " 5. ", Err(CellFault::BadByte { at: 3 })),
    (0, "-", Err(CellFault::BadByte { at: 1 })),
    (0, "--1", Err(CellFault::BadByte { at: 1 })),
    (0, "1e-5", Err(CellFault::BadByte { at: 1 })),
    (0, "1 2", Err(CellFault::BadByte { at: 1 })),
    (0, "\t1", Err(CellFault::BadByte { at: 0 })),
    (0, "1.2.3", Err(CellFault::BadByte { at: 3 })),
    (
        0,
        "99999999999999999999x",
        Err(CellFault::BadByte { at: 20 }),
    ),
    (0, "5.1", Err(CellFault::TooFine)),
    (0, "9223372036854775808.5", Err(CellFault::TooFine)),
    (0, "9223372036854775808", Err(CellFault::TooLarge)),
    (0, "-9223372036854775809", Err(CellFault::TooLarge)),
    (0, "18446744073709551617", Err(CellFault::TooLarge)),
    (
        0,
        "99999999999999999999999999999999",
        Err(CellFault::TooLarge),
    ),
    (1, "5", Ok(50)),
    (1, "-0.5", Ok(18_446_744_073_709_551_611)),
    (1, "922337203685477580.7", Ok(MOST)),
    (1, "-922337203685477580.8", Ok(LEAST)),
    (1, "-922337203685477580.80", Ok(LEAST)),
    (1, "922337203685477580.8", Err(CellFault::TooLarge)),
    (1, "-922337203685477580.9", Err(CellFault::TooLarge)),
    (1, "922337203685477581", Err(CellFault::TooLarge)),
    (1, "0.01", Err(CellFault::TooFine)),
    (1, "1844674407370955161.7", Err(CellFault::TooLarge)),
    (2, "1.5", Ok(150)),
    (2, "1.50", Ok(150)),
    (2, "1.5000", Ok(150)),
    (2, "1.501", Err(CellFault::TooFine)),
    (2, "1.50x", Err(CellFault::BadByte { at: 4 })),
    (2, "1.5009x", Err(CellFault::BadByte { at: 6 })),
    (2, " 1.5. ", Err(CellFault::BadByte { at: 4 })),
    (2, " -.5", Err(CellFault::BadByte { at: 2 })),
    (2, "  -3. ", Err(CellFault::BadByte { at: 5 })),
    (9, "9223372036.854775807", Ok(MOST)),
    (9, "-9223372036.854775808", Ok(LEAST)),
    (9, "9223372036.854775808", Err(CellFault::TooLarge)),
    (9, "0000000000009223372036.854775807000000000", Ok(MOST)),
    (9, "9223372037", Err(CellFault::TooLarge)),
    (9, "9223372037.0000000001", Err(CellFault::TooFine)),
    (9, "0.000000001", Ok(1)),
    (9, "0.0000000001", Err(CellFault::TooFine)),
    (18, "0", Ok(0)),
    (18, "-0.0", Ok(0)),
    (18, "9", Ok(9_000_000_000_000_000_000)),
    (18, "10", Err(CellFault::TooLarge)),
    (18, "9.223372036854775807", Ok(MOST)),
    (18, "-9.223372036854775808", Ok(LEAST)),
    (18, "9.223372036854775808", Err(CellFault::TooLarge)),
    (18, "9.2233720368547758080", Err(CellFault::TooLarge)),
    (18, "9.2233720368547758070000000000000000000", Ok(MOST)),
    (
        18,
        "9.2233720368547758070000000000000000001",
        Err(CellFault::TooFine),
    ),
    (18, "99999999999999999999.0", Err(CellFault::TooLarge)),
];

#[test]
fn cells_are_read(rt: HostRuntime) {
    for (scale, text, want) in &READ {
        let bytes = text.as_bytes();
        assert!(rt; bytes.len() < 100);
        assert!(rt; *scale <= MOST_FIELD_SCALE);
        assert_eq!(rt; read_cell(*scale, bytes), *want, "at {scale} of {text}");
    }
}

static WRITTEN: [(u32, u64, &str); 19] = [
    (0, 0, "0"),
    (0, 9, "9"),
    (0, 10, "10"),
    (0, 12_345, "12345"),
    (0, MOST, "9223372036854775807"),
    (0, LEAST, "-9223372036854775808"),
    (0, MINUS_ONE, "-1"),
    (1, 0, "0.0"),
    (1, 15, "1.5"),
    (1, LEAST, "-922337203685477580.8"),
    (2, 5, "0.05"),
    (2, 18_446_744_073_709_551_466, "-1.50"),
    (3, 100_000, "100.000"),
    (9, MINUS_ONE, "-0.000000001"),
    (9, LEAST, "-9223372036.854775808"),
    (18, 0, "0.000000000000000000"),
    (18, MINUS_ONE, "-0.000000000000000001"),
    (18, MOST, "9.223372036854775807"),
    (18, LEAST, "-9.223372036854775808"),
];

#[test]
fn cells_are_written(rt: HostRuntime) -> Result<(), AllocError> {
    for (scale, word, want) in &WRITTEN {
        assert!(rt; *scale <= MOST_FIELD_SCALE);
        let len = cell_len(*scale, *word);
        let mut bytes = Vec::with_capacity(rt.alloc(), len)?;
        write_cell(*scale, *word, &mut bytes);
        assert_eq!(rt; bytes.as_slice(), want.as_bytes());
        assert_eq!(rt; len, want.len());
    }
    Ok(())
}

static WORDS: [u64; 8] = [
    0,
    1,
    9,
    1_000_000_000,
    MOST,
    LEAST,
    18_446_744_072_709_551_616,
    MINUS_ONE,
];

#[test]
fn what_is_written_is_read(rt: HostRuntime) -> Result<(), AllocError> {
    for scale in 0..=MOST_FIELD_SCALE {
        for word in &WORDS {
            let len = cell_len(scale, *word);
            let mut bytes = Vec::with_capacity(rt.alloc(), len)?;
            write_cell(scale, *word, &mut bytes);
            assert!(rt; bytes.len() < 100);
            assert_eq!(rt; read_cell(scale, &bytes), Ok(*word), "at {scale} of {word}");
        }
    }
    Ok(())
}

#[test]
fn words_are_trimmed_and_computed(rt: HostRuntime) {
    for (bytes, want) in [("  a b  ", "a b"), ("\t k \n", "\t k \n"), ("  ", "")] {
        assert_eq!(rt; trim_spaces(bytes.as_bytes()), want.as_bytes());
    }
    assert_eq!(rt; add(MINUS_ONE, 3), 2);
    assert_eq!(rt; sub(2, 3), MINUS_ONE);
    assert_eq!(rt; mul(MINUS_ONE, 7), neg(7));
    assert_eq!(rt; neg(0), 0);
    assert!(rt; less(MINUS_ONE, 0));
    assert!(rt; !less(0, MINUS_ONE));
    assert!(rt; !less(4, 4));
}

/// Words, scales, and what they are at the last scale.
static RESCALED: [(u64, u32, u32, u64); 13] = [
    // -0.15, 0.10 and 0.05 with one decimal
    (18_446_744_073_709_551_601, 2, 1, 18_446_744_073_709_551_614),
    (10, 2, 1, 1),
    (5, 2, 1, 0),
    (150, 2, 2, 150),
    (150, 2, 4, 15_000),
    (150, 2, 1, 15),
    (159, 2, 1, 15),
    (18_446_744_073_709_551_466, 2, 1, 18_446_744_073_709_551_601),
    (18_446_744_073_709_551_465, 2, 1, 18_446_744_073_709_551_600),
    (MINUS_ONE, 18, 0, MINUS_ONE),
    (LEAST, 36, 18, 18_446_744_073_709_551_606),
    (LEAST, 18, 36, 0),
    (MOST, 0, 1, 18_446_744_073_709_551_606),
];

/// Two words with their scales, the scale of their quotient, and the quotient.
static QUOTIENTS: [(u64, u32, u64, u32, u32, Option<u64>); 13] = [
    // -1.00 by 3.00, and 1.00 by 0.00
    (
        18_446_744_073_709_551_516,
        2,
        300,
        2,
        2,
        Some(18_446_744_073_709_551_582),
    ),
    (100, 2, 0, 2, 2, None),
    (150, 2, 7, 2, 2, Some(2_142)),
    (
        150,
        2,
        18_446_744_073_709_551_609,
        2,
        2,
        Some(18_446_744_073_709_549_473),
    ),
    (
        18_446_744_073_709_551_466,
        2,
        7,
        2,
        2,
        Some(18_446_744_073_709_549_473),
    ),
    (
        18_446_744_073_709_551_466,
        2,
        18_446_744_073_709_551_609,
        2,
        2,
        Some(2_142),
    ),
    (
        18_446_744_073_709_551_466,
        2,
        5,
        2,
        2,
        Some(18_446_744_073_709_548_616),
    ),
    (0, 0, MINUS_ONE, 0, 18, Some(0)),
    (7, 0, 0, 0, 0, None),
    (0, 36, 0, 18, 18, None),
    (1, 0, 3, 0, 18, Some(333_333_333_333_333_333)),
    (LEAST, 0, MINUS_ONE, 0, 0, Some(LEAST)),
    (MOST, 0, 1, 0, 1, Some(18_446_744_073_709_551_606)),
];

/// A word with its scale, the scale of its root, and the root.
static ROOTS: [(u64, u32, u32, Option<u64>); 11] = [
    // of 2.00 and of -0.01
    (200, 2, 2, Some(141)),
    (MINUS_ONE, 2, 2, None),
    (0, 0, 0, Some(0)),
    (15, 0, 0, Some(3)),
    (16, 0, 0, Some(4)),
    (2, 0, 9, Some(1_414_213_562)),
    (225, 2, 1, Some(15)),
    (225, 2, 2, Some(150)),
    (MOST, 0, 0, Some(3_037_000_499)),
    (MOST, 18, 18, Some(3_037_000_499_976_049_692)),
    (MINUS_ONE, 0, 0, None),
];

#[test]
fn words_change_scales(rt: HostRuntime) {
    for (word, from, to, want) in &RESCALED {
        assert!(rt; *from <= 36 && *to <= 36 && *from <= *to + 18 && *to <= *from + 18);
        assert_eq!(rt;
            rescale(*word, *from, *to),
            *want,
            "at {word} from {from} to {to}"
        );
    }
    for (a, s, b, t, d, want) in &QUOTIENTS {
        assert!(rt; *s <= 36 && *t <= 36 && *d <= 36 && *s <= *d + *t && *d + *t <= *s + 18);
        assert_eq!(rt; quot(*a, *s, *b, *t, *d), *want, "at {a} by {b}");
    }
    for (a, s, d, want) in &ROOTS {
        assert!(rt; *s <= 36 && *d <= 36 && *s <= 2 * *d && 2 * *d <= *s + 18);
        assert_eq!(rt; isqrt(*a, *s, *d), *want, "at {a}");
    }
}
