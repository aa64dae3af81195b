//! Numbers, seeds and keys on a command line.

use command_words::{bytes32_from_hex, decimal, publisher_key};

const ZEROS: &str = "0000000000000000000000000000000000000000000000000000000000000000";

const ONES: &str = "0101010101010101010101010101010101010101010101010101010101010101";

#[test]
fn numbers_are_digits_alone(rt: HostRuntime) {
    assert_eq!(rt; decimal("007"), Some(7));
    assert_eq!(rt; decimal("18446744073709551615"), Some(u64::MAX));
    for text in ["", "+5", " 5", "18446744073709551616"] {
        assert_eq!(rt; decimal(text), None, "{text}");
    }
}

#[test]
fn a_key_is_64_digits_and_not_zero(rt: HostRuntime) {
    assert_eq!(rt; bytes32_from_hex(ZEROS), Some([0; 32]));
    assert_eq!(rt; publisher_key(ONES), Some([1; 32]));
    assert_eq!(rt; publisher_key(ZEROS), None);
}
