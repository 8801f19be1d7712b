//! Names, readings and instants to draw from: usual ones, those at the limits, and those beyond.

use crate::random::Random;

const NAMES: [&[u8]; 40] = [
    b"A",
    b"A-",
    b"AB",
    b"SG-7",
    b"SG-70",
    b"-",
    b"0",
    b"SG-7-REAR-PANEL1",
    b"SG-7-REAR-PANEL2",
    b"SG-7-REAR",
    b"B",
    b"BA",
    b"B0",
    b"B-1",
    b"C",
    b"CC",
    b"CCC",
    b"CCCC",
    b"D-10",
    b"D-9",
    b"E",
    b"EEEEEEEE",
    b"EEEEEEEEA",
    b"EEEEEEEEB",
    b"EEEEEEEF",
    b"F0",
    b"F00",
    b"G",
    b"H",
    b"I1",
    b"J22",
    b"K333",
    b"L4444",
    b"M55555",
    b"N666666",
    b"P7777777",
    b"Q88888888",
    b"R999999999",
    b"Z",
    b"ZZZZZZZZZZZZZZZZ",
];

const BROKEN_NAMES: [&[u8]; 9] = [
    b"",
    b"sg-7",
    b"SG 7",
    b"SG_7",
    b"SG-7\r",
    b"SG-7-REAR-PANEL10",
    b"\x00",
    b"A\x00",
    b"\xc3\x84",
];

const LIMIT_READINGS: [i64; 8] = [
    0,
    1000000000000,
    -1000000000000,
    1000000000001,
    -1000000000001,
    999999999999999999,
    -999999999999999999,
    1,
];

const LIMIT_INSTANTS: [u32; 4] = [0, 1, 4294967294, 4294967295];

/// So few that many readings have one measured instant.
const FEW_INSTANTS: u32 = 8;

const AHEAD: u32 = 4;

const READINGS: u32 = 200;

const LEAST_READING: i64 = -100;

/// One of the first so many names, or seldom one that breaks the rule.
pub fn name(random: &mut Random, names: usize) -> &'static [u8] {
    if random.one_in(20) {
        return random.pick(&BROKEN_NAMES, b"");
    }
    let index = random.below(names);
    NAMES.get(index).copied().unwrap_or(b"A")
}

pub fn reading(random: &mut Random) -> i64 {
    if random.one_in(15) {
        return random.pick(&LIMIT_READINGS, 0);
    }
    i64::from(random.instant_below(READINGS)).saturating_add(LEAST_READING)
}

/// An instant below `end`, or seldom one at the limits.
pub fn instant(random: &mut Random, end: u32) -> u32 {
    if random.one_in(25) {
        return random.pick(&LIMIT_INSTANTS, 0);
    }
    random.instant_below(end)
}

/// A measured instant: mostly one of a few, else one up to the last recorded instant and a little after.
pub fn measured(random: &mut Random, last_recorded: u32) -> u32 {
    let end = if random.one_in(3) {
        last_recorded.saturating_add(AHEAD)
    } else {
        FEW_INSTANTS
    };
    instant(random, end)
}

/// A recorded instant to ask about: mostly one of the last, else any.
pub fn recorded(random: &mut Random, last_recorded: u32) -> u32 {
    if random.one_in(4) {
        return measured(random, last_recorded);
    }
    last_recorded.saturating_sub(random.instant_below(FEW_INSTANTS))
}

/// The ends of a span of measured instants, seldom crossed.
pub fn span(random: &mut Random, last_recorded: u32) -> (u32, u32) {
    let first = measured(random, last_recorded);
    let second = measured(random, last_recorded);
    if random.one_in(8) {
        return (first, second);
    }
    (first.min(second), first.max(second))
}
