//! Loading and saving.

use cost::Plain;
use orderfile::loading::{check as check_file, load};
use orderfile::saving::save;
use std::test::Fail;

// A file of two blocks: (1, 0) at 5, then (0, 1) at -2, then (1, 0) again at 7.
const FILE: [u8; 46] = [
    1, 0, 1, 2, 2, 0, 10, 1, 0, 0, 0, 0, 0, 0, 0, 0, 5, 2, 0, 10, 0, 1, 255, 255, 255, 255, 255,
    255, 255, 254, 2, 0, 10, 1, 0, 0, 0, 0, 0, 0, 0, 0, 7, 3, 0, 0,
];

#[test]
fn loading_enters_the_pairs_in_turn(rt: HostRuntime) -> Result<(), Fail> {
    let mut costs = [Plain(9); 4];
    let mut standing = [9u8; 4];
    match load(&FILE, &mut costs, &mut standing) {
        Ok(sheet) => assert_eq!(rt; sheet.size(), 2),
        Err(_) => return Err(Fail::new("not loaded")),
    }
    assert_eq!(rt; costs, [Plain(0), Plain(-2), Plain(7), Plain(0)]);
    assert_eq!(rt; standing, [0, 1, 1, 0]);
    Ok(())
}

// A file of one block that names its pair three times, each time at 0: the last bytes of the costs
// are at 16, 29 and 42.
const THRICE: [u8; 46] = [
    1, 0, 1, 1, 2, 0, 10, 0, 0, 0, 0, 0, 0, 0, 0, 0, 0, 2, 0, 10, 0, 0, 0, 0, 0, 0, 0, 0, 0, 0, 2,
    0, 10, 0, 0, 0, 0, 0, 0, 0, 0, 0, 0, 3, 0, 0,
];

#[test]
fn the_greatest_of_three_costs_is_loaded(rt: HostRuntime) {
    let cases = [
        (7, 5, 3),
        (7, 3, 5),
        (5, 7, 3),
        (3, 7, 5),
        (5, 3, 7),
        (3, 5, 7),
    ];
    for (first, second, third) in cases {
        let mut file = THRICE;
        file[16] = first;
        file[29] = second;
        file[42] = third;
        let (mut costs, mut standing) = ([Plain(9)], [9u8]);
        assert!(rt; load(&file, &mut costs, &mut standing).is_ok());
        assert_eq!(rt; costs, [Plain(7)]);
        assert_eq!(rt; standing, [1]);
    }
}

#[test]
fn wrong_lengths_come_last_and_change_nothing(rt: HostRuntime) -> Result<(), Fail> {
    let mut costs = [Plain(9); 9];
    let mut standing = [9u8; 9];
    match load(&FILE, &mut costs, &mut standing) {
        Ok(_) => return Err(Fail::new("loaded")),
        Err(fault) => assert!(rt;
            fault.cause.number() == 2 && fault.place == 0 && fault.layer.number() == 3
        ),
    }
    match load(&FILE[0..45], &mut costs, &mut standing) {
        Ok(_) => return Err(Fail::new("loaded")),
        Err(fault) => assert!(rt;
            fault.cause.number() == 8 && fault.place == 43 && fault.layer.number() == 1
        ),
    }
    assert_eq!(rt; costs, [Plain(9); 9]);
    assert_eq!(rt; standing, [9; 9]);
    Ok(())
}

#[test]
fn a_saved_sheet_loads_again(rt: HostRuntime) -> Result<(), Fail> {
    let mut costs = [Plain(0); 4];
    let mut standing = [0u8; 4];
    let Ok(sheet) = load(&FILE, &mut costs, &mut standing) else {
        return Err(Fail::new("not loaded"));
    };
    let mut out = [77u8; 40];
    match save(&sheet, &costs, &standing, &mut out) {
        Ok(length) => assert_eq!(rt; length, 33),
        Err(_) => return Err(Fail::new("not saved")),
    }
    assert_eq!(rt; out[33], 77);
    assert_eq!(rt; out[39], 77);
    let mut again = [Plain(3); 4];
    let mut stood = [3u8; 4];
    assert!(rt; load(&out[0..33], &mut again, &mut stood).is_ok());
    assert_eq!(rt; again, costs);
    assert_eq!(rt; stood, standing);
    Ok(())
}

#[test]
fn saving_refuses_in_order(rt: HostRuntime) -> Result<(), Fail> {
    let mut costs = [Plain(0); 4];
    let mut standing = [0u8; 4];
    let Ok(sheet) = load(&FILE, &mut costs, &mut standing) else {
        return Err(Fail::new("not loaded"));
    };
    let mut out = [77u8; 32];
    match save(&sheet, &costs, &standing, &mut out) {
        Ok(_) => return Err(Fail::new("saved")),
        Err(fault) => assert!(rt; fault.cause.number() == 11),
    }
    costs[1] = Plain(1_000_000_001);
    match save(&sheet, &costs, &standing, &mut out) {
        Ok(_) => return Err(Fail::new("saved")),
        Err(fault) => assert!(rt; fault.cause.number() == 7),
    }
    match save(&sheet, &costs[0..3], &standing, &mut out) {
        Ok(_) => return Err(Fail::new("saved")),
        Err(fault) => assert!(rt; fault.cause.number() == 2),
    }
    assert_eq!(rt; out, [77; 32]);
    Ok(())
}

#[test]
fn every_cut_is_an_overrun(rt: HostRuntime) -> Result<(), Fail> {
    for length in 0..46 {
        match check_file(&FILE[0..length]) {
            Ok(_) => return Err(Fail::new("taken")),
            Err(fault) => assert!(rt; fault.cause.number() == 8 && fault.place <= length),
        }
    }
    assert!(rt; check_file(&FILE).is_ok());
    Ok(())
}
