// Plans worked through by hand, as one table of facts about the definitions.
#![tactic(auto)]

ghost use Rattle.std.specs.Prelude.{◌≡◌};
ghost use Rattle.worked.specs.Facts.{numbers, Facts};

/// The job numbers whose plans are worked through.
pub fn worked_numbers() -> [u64; 6]
    ensures listed { result ≡ numbers }
    ensures facts { Facts }
{
    [1, 2, 7, 11, 23, 13]
}
