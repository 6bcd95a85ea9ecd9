// Refusals that the logger shows a number for.
#![tactic(auto)]

ghost use Rattle.std.specs.Prelude.{◌≡◌, ℕ};

/// Why a call is refused. The logger shows a number for each reason.
pub trait Refusal {
    // The number of each reason.
    ghost shown_as: { Self → ℕ };

    /// The number that the logger shows.
    fn number(self) -> u32
        ensures { result ≡ shown_as self };
}
