// The margin as a signed number, exact on both sides of zero.
ghost use Rattle.std.specs.Prelude.{◌≡◌, ◌^◌, ◌<◌};
ghost use Rattle.std.proofs.Math.IntN.{sub_ℕ};

// t minus what is asked.
pub fn spare(t: u64, asked: u64) -> i64
    requires { (t < 2 ^ 63) × (asked < 2 ^ 63) }
    ensures { result ≡ sub_ℕ t asked }
{
    (t as i64) - (asked as i64)
}
