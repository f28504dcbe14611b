//! Refusals, with the members and the places of a break, are printed at every size of their numbers: a
//! contract says what is printed where nothing fails, and cannot say that printing does not fail by itself.

use crate::checks::{AMPLE, joined, same};
use gomp_script::print_refusal;
use gomp_test_data::text_of;
use gomp_types::{Clash, Name, Place, Refusal};
use std::alloc::Global;
use std::fmt::Display;
use std::process::Abort;

/// Each kind of place at these numbers.
const PLACES: &[(Place, &str)] = &[
    (Place::Stopped, "stopped"),
    (Place::Share(0), "share 0"),
    (Place::Share(9), "share 9"),
    (Place::Share(10), "share 10"),
    (Place::Share(255), "share 255"),
    (Place::Share(256), "share 256"),
    (Place::Share(65_535), "share 65535"),
    (Place::Share(65_536), "share 65536"),
    (Place::Share(4_294_967_295), "share 4294967295"),
    (Place::Share(4_294_967_296), "share 4294967296"),
    (
        Place::Share(9_223_372_036_854_775_807),
        "share 9223372036854775807",
    ),
    (
        Place::Share(9_223_372_036_854_775_808),
        "share 9223372036854775808",
    ),
    (
        Place::Share(18_446_744_073_709_551_615),
        "share 18446744073709551615",
    ),
    (Place::Barrier(0), "barrier 0"),
    (Place::Barrier(9), "barrier 9"),
    (Place::Barrier(10), "barrier 10"),
    (Place::Barrier(255), "barrier 255"),
    (Place::Barrier(256), "barrier 256"),
    (Place::Barrier(65_535), "barrier 65535"),
    (Place::Barrier(65_536), "barrier 65536"),
    (Place::Barrier(4_294_967_295), "barrier 4294967295"),
    (Place::Barrier(4_294_967_296), "barrier 4294967296"),
    (
        Place::Barrier(9_223_372_036_854_775_807),
        "barrier 9223372036854775807",
    ),
    (
        Place::Barrier(9_223_372_036_854_775_808),
        "barrier 9223372036854775808",
    ),
    (
        Place::Barrier(18_446_744_073_709_551_615),
        "barrier 18446744073709551615",
    ),
];

/// Members, as they are printed. A member that a team does not have is printed too.
const MEMBERS: &[(u16, &str)] = &[
    (0, "0"),
    (1, "1"),
    (9, "9"),
    (10, "10"),
    (63, "63"),
    (255, "255"),
    (256, "256"),
    (65_535, "65535"),
];

/// The refusals that say no more than their number and name: the number, and what is printed.
const REFUSALS: &[(u8, &str)] = &[
    (1, "E1 BadMember"),
    (2, "E2 Ended"),
    (4, "E4 Waiting"),
    (5, "E5 Leaving"),
    (6, "E6 InsideTask"),
    (7, "E7 NotInTask"),
    (8, "E8 InsideShare"),
    (9, "E9 OutsideShare"),
    (10, "E10 InOrdered"),
    (11, "E11 HoldsCritical"),
    (12, "E12 ZeroStep"),
    (13, "E13 BadChunk"),
    (14, "E14 LoopTooLong"),
    (15, "E15 BadSections"),
    (16, "E16 OrderedLoop"),
    (17, "E17 EndDiffers"),
    (18, "E18 NotDrained"),
    (19, "E19 Drained"),
    (20, "E20 NotOrdered"),
    (21, "E21 OrderedBackwards"),
    (22, "E22 NotInside"),
    (23, "E23 NotCancellable"),
    (24, "E24 NoGroup"),
    (25, "E25 GroupOpen"),
    (26, "E26 TooDeep"),
    (27, "E27 TooManyTasks"),
    (28, "E28 TooManyDepends"),
    (29, "E29 NameTooLong"),
    (30, "E30 AlreadyHeld"),
    (31, "E31 NotHolder"),
    (32, "E32 NoLock"),
    (33, "E33 CountTooLarge"),
    (34, "E34 TooManyShares"),
    (35, "E35 Mismatch"),
    (36, "E36 TraceFull"),
    (37, "E37 NoMemory"),
    (38, "E38 BadTeam"),
    (39, "E39 TooManyLevels"),
];

/// The one of this number, if it is one of those.
fn refusal_of(number: u8) -> Option<Refusal> {
    match number {
        1 => Some(Refusal::BadMember),
        2 => Some(Refusal::Ended),
        4 => Some(Refusal::Waiting),
        5 => Some(Refusal::Leaving),
        6 => Some(Refusal::InsideTask),
        7 => Some(Refusal::NotInTask),
        8 => Some(Refusal::InsideShare),
        9 => Some(Refusal::OutsideShare),
        10 => Some(Refusal::InOrdered),
        11 => Some(Refusal::HoldsCritical),
        12 => Some(Refusal::ZeroStep),
        13 => Some(Refusal::BadChunk),
        14 => Some(Refusal::LoopTooLong),
        15 => Some(Refusal::BadSections),
        16 => Some(Refusal::OrderedLoop),
        17 => Some(Refusal::EndDiffers),
        18 => Some(Refusal::NotDrained),
        19 => Some(Refusal::Drained),
        20 => Some(Refusal::NotOrdered),
        21 => Some(Refusal::OrderedBackwards),
        22 => Some(Refusal::NotInside),
        23 => Some(Refusal::NotCancellable),
        24 => Some(Refusal::NoGroup),
        25 => Some(Refusal::GroupOpen),
        26 => Some(Refusal::TooDeep),
        27 => Some(Refusal::TooManyTasks),
        28 => Some(Refusal::TooManyDepends),
        29 => Some(Refusal::NameTooLong),
        30 => Some(Refusal::AlreadyHeld),
        31 => Some(Refusal::NotHolder),
        32 => Some(Refusal::NoLock),
        33 => Some(Refusal::CountTooLarge),
        34 => Some(Refusal::TooManyShares),
        35 => Some(Refusal::Mismatch),
        36 => Some(Refusal::TraceFull),
        37 => Some(Refusal::NoMemory),
        38 => Some(Refusal::BadTeam),
        39 => Some(Refusal::TooManyLevels),
        _ => None,
    }
}

/// That the value prints as this text, to the last byte.
fn prints<D: Display>(rt: &impl Abort, alloc: Global, value: &D, expected: &str) {
    let text = value.to_string(alloc).expect(rt, AMPLE);
    assert_eq!(rt; text.as_str(), expected);
    drop(text);
}

/// That a refusal prints so, and has its line.
fn prints_refusal(rt: &impl Abort, alloc: Global, refusal: &Refusal, expected: &str) {
    prints(rt, alloc, refusal, expected);
    let line = joined(rt, alloc, &["refused ", expected, "\n"]);
    let found = print_refusal(alloc, refusal).expect(rt, AMPLE);
    same(rt, found, line, expected, 0);
}

/// That the refusal of a break by this clash prints so.
fn prints_broken(rt: &impl Abort, alloc: Global, clash: Clash, expected: &str) {
    let refusal = Refusal::Broken(clash);
    prints(rt, alloc, &refusal, expected);
    drop(refusal);
}

/// That a break by this member, which has these digits, prints so, in a cause and in a refusal.
fn prints_clash(rt: &impl Abort, alloc: Global, clash: Clash, digits: &str, text: &str) {
    let refusal = joined(rt, alloc, &["E3 Broken ", digits, " ", text]);
    prints_broken(rt, alloc, clash, refusal.as_str());
    let cause = joined(rt, alloc, &[digits, " ", text]);
    prints(rt, alloc, &clash, cause.as_str());
    drop(refusal);
    drop(cause);
}

/// That a place prints so, and each member at it.
fn prints_place(rt: &impl Abort, alloc: Global, place: Place, text: &str) {
    prints(rt, alloc, &place, text);
    for (member, digits) in MEMBERS {
        let member = *member;
        prints_clash(rt, alloc, Clash { member, place }, *digits, text);
    }
}

/// That a member of this number prints.
fn prints_member(rt: &impl Abort, alloc: Global, member: u16) {
    let place = Place::Stopped;
    let cause = format!(in alloc; "{member} stopped").expect(rt, AMPLE);
    prints(rt, alloc, &Clash { member, place }, cause.as_str());
    drop(cause);
}

/// That a refusal of a name of so many letters prints.
fn prints_name(rt: &impl Abort, alloc: Global, letters: u16) {
    let name = text_of(alloc, "", "n", letters as usize, "").expect(rt, AMPLE);
    let refusal = Refusal::BadEnv(Name::new(alloc, name.as_str()).expect(rt, AMPLE));
    prints(rt, alloc, &refusal, "E41 BadEnv");
    drop(name);
    drop(refusal);
}

/// That the refusal of this number prints so.
fn prints_number(rt: &impl Abort, alloc: Global, number: u8, expected: &str) {
    let refusal = refusal_of(number).expect(rt, "a refusal has this number");
    prints_refusal(rt, alloc, &refusal, expected);
    drop(refusal);
}

#[test]
fn refusals_print(rt: HostRuntime) {
    let alloc = rt.alloc();
    for (place, text) in PLACES {
        prints_place(&rt, alloc, *place, *text);
    }
    for (number, expected) in REFUSALS {
        prints_number(&rt, alloc, *number, *expected);
    }
    for size in 0..301 {
        prints_member(&rt, alloc, size);
        prints_name(&rt, alloc, size);
    }
}
