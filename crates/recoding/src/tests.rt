// Worked numbers, and what is refused.
use super::divide;
use super::pair::Pair;
use refusal::Refusal;
use std::process::Abort;
use std::test::Fail;

fn divides_into(rt: &impl Abort, number: u64, expected: &[Pair]) -> Result<(), Fail> {
    let division = divide(number)?;
    assert_eq!(rt; division.pairs(), expected);
    Ok(())
}

// What the pairs stand for, from the last pair back; none past 64 bits.
fn rebuilt(pairs: &[Pair]) -> Option<u64> {
    pairs.iter().rev().try_fold(1u64, |worth, pair| {
        worth
            .checked_mul(u64::from(pair.base()))?
            .checked_add(pair.digit() as u64)
    })
}

#[test]
fn numbers(rt: HostRuntime) -> Result<(), Fail> {
    divides_into(&rt, 1, &[])?;
    divides_into(&rt, 7, &[Pair::ThreeOne, Pair::TwoZero])?;
    divides_into(&rt, 11, &[Pair::ThreeTwo, Pair::ThreeZero])?;
    divides_into(&rt, 23, &[Pair::FiveThree, Pair::TwoZero, Pair::TwoZero])?;
    let greatest = divide(u64::MAX)?;
    assert!(rt; greatest.pairs().len() <= 63);
    assert_eq!(rt; rebuilt(greatest.pairs()), Some(u64::MAX));
    Ok(())
}

#[test]
fn refusals(rt: HostRuntime) -> Result<(), Fail> {
    let zero = divide(0).err().ok_or("0 was divided")?;
    assert_eq!(rt; zero.number(), 52);
    for (base, digit) in [(2, 2), (4, 0), (5, -1), (258, 0)] {
        let fault = Pair::new(base, digit).err().ok_or("no pair was taken")?;
        assert_eq!(rt; fault.number(), 53);
    }
    Ok(())
}
