// Powers of two.

ghost use Rattle.std.specs.Prelude.{◌≡◌, ◌^◌, ◌<◌};

// 2^k.
pub fn power(k: u64) -> u64
    requires { k < 64 }
    ensures { result ≡ 2 ^ k }
{
    1u64 << k
}
