//! Membership in sets of consoles, which are numbers.
ghost use Rattle.std.specs.Prelude.{◌≡◌, ◌<◌};
ghost use Rattle.vt_base.specs.ConsoleSet.{is_among};

/// Whether console `n` is in the set, which is a number: bit n is 1 if console n is in it.
#[tactic(auto, using(std::proofs::lemmas::Nat::Bits::shr_and_one))]
pub fn is_among(consoles: u64, n: usize) -> bool
    requires { n < 64 }
    ensures { result ≡ is_among consoles n }
{
    (consoles >> n) & 1 == 1
}
