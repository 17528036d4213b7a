// Sets of hosts or links as numbers.
ghost use Rattle.std.specs.Prelude.{◌≡◌};
ghost use Rattle.network.specs.Network.{has};

// Whether host or link i is in the set.
pub fn is_in(set: u32, i: u8) -> bool
    ensures { result ≡ has set i }
{
    i < 32 && (set >> (i as u32)) % 2 == 1
}
