// Worked plans, with their words, counts and weights, and what is refused.
use super::{lay_number, lay_pair, weigh};
use recoding::Pair;
use refusal::Refusal;
use std::process::Abort;
use std::test::Fail;
use steps::Register::{P, T};
use steps::{Counts, RegisterSet, judge, turn};

// What the memory holds before.
const OTHER: u32 = 0xFFFF_FFFF;

fn lays(rt: &impl Abort, number: u64, words: &mut [u32], expected: &[u32]) -> Result<(), Fail> {
    let count = lay_number(number, words)?;
    assert_eq!(rt; &words[..count], expected);
    assert!(rt; words[count..].iter().all(|word| *word == OTHER));
    Ok(())
}

#[test]
fn words(rt: HostRuntime) -> Result<(), Fail> {
    let thirteen = [
        0x1100_0000,
        0x1600_0000,
        0x5A00_0000,
        0x7600_0000,
        0x5500_0000,
        0x5500_0000,
        0x7400_0000,
    ];
    lays(&rt, 13, &mut [OTHER; 7], &thirteen)?;
    lays(&rt, 13, &mut [OTHER; 9], &thirteen)?;
    lays(&rt, 1, &mut [OTHER; 9], &[0x2100_0000])?;
    lays(&rt, 2, &mut [OTHER; 9], &[0x2100_0000, 0x5500_0000])?;
    assert_eq!(rt; lay_pair(Pair::FiveTwo, &mut [OTHER; 5])?, 5);
    for (number, fault) in [(13, 32), (0, 52)] {
        let mut words = [OTHER; 6];
        let refused = lay_number(number, &mut words).err().ok_or("it was laid")?;
        assert_eq!(rt; refused.number(), fault);
        assert_eq!(rt; words, [OTHER; 6]);
    }
    Ok(())
}

#[test]
fn counts_and_weights(rt: HostRuntime) -> Result<(), Fail> {
    let (only_t, only_p) = (RegisterSet::only(T), RegisterSet::only(P));
    for (number, squarings, multiplications) in [(7, 2, 2), (11, 2, 3), (23, 2, 4)] {
        let mut words = [OTHER; 20];
        let count = lay_number(number, &mut words)?;
        let counts = Counts {
            squarings,
            multiplications,
        };
        assert_eq!(rt; judge(only_t, &words[..count])?.counts, counts);
    }
    let mut words = [OTHER; 253];
    let count = lay_number(u64::MAX, &mut words)?;
    let plan = &mut words[..count];
    assert_eq!(rt; weigh(only_t, plan, P, T).ok(), Some(u64::MAX));
    assert!(rt; turn(only_t, plan).is_ok());
    assert_eq!(rt; weigh(only_p, plan, T, P).ok(), Some(u64::MAX));
    let refused = weigh(only_t, &[OTHER], P, T).err().ok_or("it was weighed")?;
    assert_eq!(rt; refused.number(), 11);
    Ok(())
}
