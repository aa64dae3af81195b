//! Words of a seed, noise, and odds that were worked out apart from the code.

use noise_odds::{Odds, of_double, of_simple};
use noise_table::{NOISE_MAX, noise_of};
use seed_expand::WordSource;

const ZERO: [u8; 32] = [0; 32];

// The seed of the bytes 00, 01, .. 1f, the key of RFC 8439, section 2.3.2.
const COUNTING: [u8; 32] = [
    0, 1, 2, 3, 4, 5, 6, 7, 8, 9, 10, 11, 12, 13, 14, 15, 16, 17, 18, 19, 20, 21, 22, 23, 24, 25,
    26, 27, 28, 29, 30, 31,
];

// The keystreams of RFC 8439, appendix A.1, test vectors 1, 2 and 5, and of section 2.3.2: the
// second word of its 96-bit nonce is the low half of the stream's number, the third the high half,
// and the first the high half of the block.
#[test]
fn words_of_the_standard(rt: HostRuntime) {
    let vectors = [
        (ZERO, 0, 0, 0xade0_b876, 0x903d_f1a0),
        (ZERO, 0, 16, 0xbee7_079f, 0x7a38_5155),
        (ZERO, 0x0200_0000_0000_0000, 0, 0x374d_c6c2, 0x3736_d58c),
        (
            COUNTING,
            0x4a00_0000,
            0x9000_0000_0000_0010,
            0xe4e7_f110,
            0x1559_3bd1,
        ),
    ];
    for (seed, stream, place, first, second) in vectors {
        let mut source = WordSource::at(&seed, stream, place);
        assert_eq!(rt; source.next(), first, "stream {stream}, place {place}");
        assert_eq!(rt; source.next(), second, "stream {stream}, place {place}");
    }
}

#[test]
fn noise_of_words(rt: HostRuntime) {
    let worked = [
        (0, 0),
        (2042, 0),
        (32768, 0),
        (2043, 1),
        (34811, -1),
        (32767, 27),
        (65535, -27),
        (0xFFFF_0000, 0),
    ];
    for (word, want) in worked {
        assert_eq!(rt; noise_of(word), want, "word {word}");
    }
    assert_eq!(rt; NOISE_MAX, 27);
}

// The odds are whole numbers of any length.
#[test]
fn odds_of_digits(rt: HostRuntime) {
    let simple = [
        (9, 32_768, 106, 35),
        (10, 4_096, 52, 17),
        (10, 1_613, 121, 44),
        (8, 1_219, 15_588, 15_588),
        (10, 32_768, 4, 1),
        (6, 1, 4_981_582_463, 4_981_582_463),
    ];
    for (width, columns, even, worst) in simple {
        assert!(rt; 6 <= width && width <= 10 && 0 < columns && columns <= 32_768);
        let odds = of_simple(width, columns);
        assert_eq!(rt;
            odds,
            Odds { even, worst },
            "width {width}, {columns} columns"
        );
    }
    assert_eq!(rt;
        of_double(9, 32_768, 32_761),
        Odds {
            even: 92,
            worst: 21
        }
    );
    assert_eq!(rt; of_double(10, 4_096, 4_096), Odds { even: 38, worst: 3 });
    assert_eq!(rt; of_double(10, 32_768, 4), Odds { even: 3, worst: 0 });
}
