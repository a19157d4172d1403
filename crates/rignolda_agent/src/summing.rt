ghost use Rattle.std.specs.Prelude.{◌≡◌, ◌%◌, List, fold, length};
ghost use Rattle.rignolda_agent.specs.Checksum.{checksum, with_byte};
ghost use Rattle.rignolda_agent.specs.Sums.{after_zeros};

use crate::more_tables::{SUMS_9, SUMS_10, SUMS_11, SUMS_12, SUMS_13, SUMS_14, SUMS_15, SUMS_16};
use crate::tables::{SUMS_1, SUMS_2, SUMS_3, SUMS_4, SUMS_5, SUMS_6, SUMS_7, SUMS_8};

/// The sum with which a checksum begins.
const FIRST: u32 = 0xffff_ffff;

/// The place of a word's low byte in a table.
fn low(word: u64) -> usize
    ensures { result ≡ word % 256 }
{
    (word % 256) as usize
}

#[tactic(auto, using(crate::proofs::TableSums::in_1))]
fn after_1(word: u64) -> u32
    ensures { result ≡ after_zeros 1 (word % 256) }
{
    SUMS_1[low(word)]
}

#[tactic(auto, using(crate::proofs::TableSums::in_2))]
fn after_2(word: u64) -> u32
    ensures { result ≡ after_zeros 2 (word % 256) }
{
    SUMS_2[low(word)]
}

#[tactic(auto, using(crate::proofs::TableSums::in_3))]
fn after_3(word: u64) -> u32
    ensures { result ≡ after_zeros 3 (word % 256) }
{
    SUMS_3[low(word)]
}

#[tactic(auto, using(crate::proofs::TableSums::in_4))]
fn after_4(word: u64) -> u32
    ensures { result ≡ after_zeros 4 (word % 256) }
{
    SUMS_4[low(word)]
}

#[tactic(auto, using(crate::proofs::TableSums::in_5))]
fn after_5(word: u64) -> u32
    ensures { result ≡ after_zeros 5 (word % 256) }
{
    SUMS_5[low(word)]
}

#[tactic(auto, using(crate::proofs::TableSums::in_6))]
fn after_6(word: u64) -> u32
    ensures { result ≡ after_zeros 6 (word % 256) }
{
    SUMS_6[low(word)]
}

#[tactic(auto, using(crate::proofs::TableSums::in_7))]
fn after_7(word: u64) -> u32
    ensures { result ≡ after_zeros 7 (word % 256) }
{
    SUMS_7[low(word)]
}

#[tactic(auto, using(crate::proofs::TableSums::in_8))]
fn after_8(word: u64) -> u32
    ensures { result ≡ after_zeros 8 (word % 256) }
{
    SUMS_8[low(word)]
}

#[tactic(auto, using(crate::proofs::TableSums::in_9))]
fn after_9(word: u64) -> u32
    ensures { result ≡ after_zeros 9 (word % 256) }
{
    SUMS_9[low(word)]
}

#[tactic(auto, using(crate::proofs::TableSums::in_10))]
fn after_10(word: u64) -> u32
    ensures { result ≡ after_zeros 10 (word % 256) }
{
    SUMS_10[low(word)]
}

#[tactic(auto, using(crate::proofs::TableSums::in_11))]
fn after_11(word: u64) -> u32
    ensures { result ≡ after_zeros 11 (word % 256) }
{
    SUMS_11[low(word)]
}

#[tactic(auto, using(crate::proofs::TableSums::in_12))]
fn after_12(word: u64) -> u32
    ensures { result ≡ after_zeros 12 (word % 256) }
{
    SUMS_12[low(word)]
}

#[tactic(auto, using(crate::proofs::TableSums::in_13))]
fn after_13(word: u64) -> u32
    ensures { result ≡ after_zeros 13 (word % 256) }
{
    SUMS_13[low(word)]
}

#[tactic(auto, using(crate::proofs::TableSums::in_14))]
fn after_14(word: u64) -> u32
    ensures { result ≡ after_zeros 14 (word % 256) }
{
    SUMS_14[low(word)]
}

#[tactic(auto, using(crate::proofs::TableSums::in_15))]
fn after_15(word: u64) -> u32
    ensures { result ≡ after_zeros 15 (word % 256) }
{
    SUMS_15[low(word)]
}

#[tactic(auto, using(crate::proofs::TableSums::in_16))]
fn after_16(word: u64) -> u32
    ensures { result ≡ after_zeros 16 (word % 256) }
{
    SUMS_16[low(word)]
}

/// The sum of a word of four bytes with four zeros after it: those of its bytes, each with as many
/// zeros as come to be after it.
fn after_four(word: u32) -> u32
    ensures { result ≡ after_zeros 4 word }
{
    let word = u64::from(word);
    (after_4(word) ^ after_3(word / 0x100))
        ^ (after_2(word / 0x1_0000) ^ after_1(word / 0x100_0000))
}

/// The same with eight zeros after it.
fn after_eight(word: u32) -> u32
    ensures { result ≡ after_zeros 8 word }
{
    let word = u64::from(word);
    (after_8(word) ^ after_7(word / 0x100))
        ^ (after_6(word / 0x1_0000) ^ after_5(word / 0x100_0000))
}

/// The same with twelve.
fn after_twelve(word: u32) -> u32
    ensures { result ≡ after_zeros 12 word }
{
    let word = u64::from(word);
    (after_12(word) ^ after_11(word / 0x100))
        ^ (after_10(word / 0x1_0000) ^ after_9(word / 0x100_0000))
}

/// The same with sixteen.
fn after_sixteen(word: u32) -> u32
    ensures { result ≡ after_zeros 16 word }
{
    let word = u64::from(word);
    (after_16(word) ^ after_15(word / 0x100))
        ^ (after_14(word / 0x1_0000) ^ after_13(word / 0x100_0000))
}

#[tactic(auto, using(crate::proofs::Sums::one_byte))]
fn with_byte(sum: u32, byte: u8) -> u32
    ensures { result ≡ with_byte sum byte }
{
    after_1(u64::from(sum ^ u32::from(byte))) ^ (sum / 256)
}

/// The sum after sixteen more bytes. (All but the first four of them wait for no sum.)
fn with_sixteen(sum: u32, more: &[u8]) -> u32
    requires { length more.now ≡ 16 }
    ensures { result ≡ fold with_byte sum more.now }
{
    let first = u32::from_le_bytes([more[0], more[1], more[2], more[3]]);
    let second = u32::from_le_bytes([more[4], more[5], more[6], more[7]]);
    let third = u32::from_le_bytes([more[8], more[9], more[10], more[11]]);
    let last = u32::from_le_bytes([more[12], more[13], more[14], more[15]]);
    ((after_four(last) ^ after_eight(third)) ^ after_twelve(second)) ^ after_sixteen(sum ^ first)
}

/// The checksum CRC-32 of some bytes, as zlib and others have it.
#[tactic(auto, using(crate::proofs::Sums::sixteen_more))]
pub fn checksum(bytes: &[u8]) -> u32
    ensures { result ≡ checksum bytes.now }
{
    let mut sum = FIRST;
    let mut rest = bytes;
    while rest.len() >= 16 {
        let (more, others) = rest.split_at(16);
        sum = with_sixteen(sum, more);
        rest = others;
    }
    for byte in rest {
        sum = with_byte(sum, *byte);
    }
    sum ^ FIRST
}
