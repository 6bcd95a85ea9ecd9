// Worked words, plans and columns.
use super::judgement::Judgement;
use super::judging::step_word;
use super::register::Register;
use super::register_set::RegisterSet;
use super::step::Counts;
use super::{judge, turn, walk};
use refusal::Refusal;
use std::test::Fail;

#[test]
fn words(rt: HostRuntime) -> Result<(), Fail> {
    let cases = [
        (0x8000_0000, 7, Some(11)),
        (0x0000_0000, 7, Some(11)),
        (0x8F00_0001, 7, Some(11)),
        (0x5A00_0001, 7, Some(12)),
        (0x1F00_0000, 7, Some(12)),
        (0x4700_0000, 7, Some(12)),
        (0x5C00_0000, 7, Some(12)),
        (0x1100_0001, 7, Some(12)),
        (0x7500_0000, 7, Some(13)),
        (0x3400_0000, 7, Some(13)),
        (0x4100_0000, 7, Some(13)),
        (0x5500_0000, 7, None),
        (0x5000_0000, 7, None),
        (0x3100_0000, 7, None),
        (0x5500_0000, 1, Some(21)),
        (0x1800_0000, 1, Some(21)),
        (0x1100_0000, 3, Some(22)),
    ];
    for (word, bits, expected) in cases {
        let fault = step_word(RegisterSet::try_from(bits)?, word).err();
        assert_eq!(rt; fault.map(|fault| fault.number()), expected, "{}", word);
    }
    Ok(())
}

// The numbers of the start set and of the set at the end.
fn numbers(judgement: Judgement) -> (u32, u32) {
    (u32::from(judgement.start), u32::from(judgement.full))
}

#[test]
fn plans(rt: HostRuntime) -> Result<(), Fail> {
    let (t, p) = (RegisterSet::try_from(1)?, RegisterSet::try_from(2)?);
    let mut words = [
        0x1100_0000,
        0x1600_0000,
        0x5A00_0000,
        0x7600_0000,
        0x5500_0000,
        0x5500_0000,
        0x7400_0000,
    ];
    let turned = [
        0x1400_0000,
        0x5500_0000,
        0x5500_0000,
        0x1600_0000,
        0x5A00_0000,
        0x7600_0000,
        0x7100_0000,
    ];
    let counts = Counts {
        squarings: 3,
        multiplications: 2,
    };
    let from_t_to_p = Judgement {
        start: t,
        full: p,
        counts,
    };
    let from_p_to_t = Judgement {
        start: p,
        full: t,
        counts,
    };
    let judged = judge(t, &words)?;
    assert_eq!(rt; judged, from_t_to_p);
    assert_eq!(rt; numbers(judged), (1, 2));
    let back = turn(t, &mut words)?;
    assert_eq!(rt; back, from_p_to_t);
    assert_eq!(rt; numbers(back), (2, 1));
    // A value that holds sets is copied where it is passed, and can be passed again.
    assert_eq!(rt; numbers(judged), numbers(from_t_to_p));
    assert_eq!(rt; words, turned);
    let open = turn(t, &mut [0x1100_0000])?;
    let open_counts = Counts {
        squarings: 0,
        multiplications: 1,
    };
    assert_eq!(rt; u32::from(open.start), 3);
    assert_eq!(rt; open.counts, open_counts);
    let squarings = [0x5500_0000; 64];
    let entries = walk(p, Register::P, &squarings[..63])?;
    assert_eq!(rt; entries.get(Register::P), 1 << 63);
    let overflow = walk(p, Register::P, &squarings).err().ok_or("walked")?;
    assert_eq!(rt; overflow.number(), 73);
    let inverts = walk(p, Register::P, &[0x4500_0000]).err().ok_or("walked")?;
    assert_eq!(rt; inverts.number(), 71);
    Ok(())
}
