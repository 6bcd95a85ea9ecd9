// Texts, and what each is read as.
use super::fault::NumeralFault;
use super::parse;

#[test]
fn texts(rt: HostRuntime) {
    let cases = [
        ("0", Ok(0)),
        ("13", Ok(13)),
        ("0xd", Ok(13)),
        ("0xD", Ok(13)),
        ("000000000000000000000000007", Ok(7)),
        ("18446744073709551615", Ok(u64::MAX)),
        ("0xffffffffffffffff", Ok(u64::MAX)),
        ("18446744073709551616", Err(NumeralFault::TooLarge)),
        ("0x10000000000000000", Err(NumeralFault::TooLarge)),
        ("99999999999999999999x", Err(NumeralFault::NotANumber)),
        ("", Err(NumeralFault::NotANumber)),
        ("0x", Err(NumeralFault::NotANumber)),
        ("12a", Err(NumeralFault::NotANumber)),
        ("+5", Err(NumeralFault::NotANumber)),
        ("-1", Err(NumeralFault::NotANumber)),
    ];
    for (text, expected) in cases {
        assert_eq!(rt; parse(text), expected, "{}", text);
    }
}
