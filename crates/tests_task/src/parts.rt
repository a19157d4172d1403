//! Small parts by themselves: numbers of a member, and words for a script.

use rand_core::Rng;
use rand_pcg::Pcg32;
use serde_json::Value;
use stab_json::{u16_member, u32_member};
use stab_script::{Script, ScriptFault};
use std::alloc::Global;
use std::process::Abort;

/// The member `n` of a JSON text in 16 bits and in 32.
fn members(rt: &impl Abort, alloc: Global, text: &str) -> (Option<u16>, Option<u32>) {
    let value = Value::from_str(alloc, text).expect(rt, "JSON");
    (u16_member(&value, "n"), u32_member(&value, "n"))
}

#[test]
fn numbers_too_large_for_a_member_are_its_largest(rt: HostRuntime) {
    const ROWS: &[(&str, Option<u16>, Option<u32>)] = &[
        (r#"{"n":65536}"#, Some(65535), Some(65536)),
        (r#"{"n":4294967296}"#, Some(65535), Some(4294967295)),
        (r#"{"n":18446744073709551616}"#, None, None),
        (r#"{"n":1.0}"#, None, None),
        (r#"{"m":1}"#, None, None),
    ];
    for &(text, of_16_bits, of_32_bits) in ROWS {
        let found = members(&rt, rt.alloc(), text);
        assert!(rt; found == (of_16_bits, of_32_bits), "{text}");
    }
}

/// How a draw of a script is refused, if it is, and the next four words of its generator, of which
/// two are in a number each.
fn drawn<R: Rng>(
    alloc: Global,
    words: &mut R,
    (len, loss, repeat): (u32, u16, u16),
) -> (Option<ScriptFault>, u64, u64) {
    let fault = Script::draw(alloc, words, len, loss, repeat).err();
    (fault, words.next_u64(), words.next_u64())
}

#[test]
fn a_draw_takes_a_word_for_each_act_and_none_where_it_is_refused(rt: HostRuntime) {
    // The words of this seed; the first six are published.
    const ROWS: &[((u32, u16, u16), Option<ScriptFault>, u64, u64)] = &[
        ((100001, 1001, 1001), TOO_LONG, FIRST, SECOND),
        ((1, 1001, 0), RATE, FIRST, SECOND),
        ((1, 0, 1001), RATE, FIRST, SECOND),
        ((0, 0, 0), None, FIRST, SECOND),
        ((1, 800, 100), None, THIRD, 0x812fff6d_bfc6a3ad),
        (
            (2, 1000, 1000),
            None,
            0xf9384b90_e61f305a,
            0x1dc035f9_32db86fe,
        ),
        ((6, 100, 0), None, 0xc261e845_b1e882bb, 0x7964e884_1a9b90f6),
        (
            (100000, 1000, 1000),
            None,
            0xe9c07484_0c267bed,
            0x0e06bbfa_ffb878d3,
        ),
    ];
    const FIRST: u64 = 0x7b47f409_a15c02b7;
    const SECOND: u64 = 0x83d2f293_ba1d3330;
    const THIRD: u64 = 0xcbed606e_bfa4784b;
    const TOO_LONG: Option<ScriptFault> = Some(ScriptFault::TooLong);
    const RATE: Option<ScriptFault> = Some(ScriptFault::RateOutOfRange);
    for &(numbers, fault, one, two) in ROWS {
        let found = drawn(rt.alloc(), &mut Pcg32::new(42, 54), numbers);
        assert!(rt; found == (fault, one, two), "{numbers:?}");
    }
}
