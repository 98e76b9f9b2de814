// One search finds a name in any table of named records.
ghost use Rattle.std.specs.Prelude.{◌≡◌, ℕ, ◌<◌, List, map, length, IfSome};
ghost use Rattle.lines.specs.Found.{found};

// A record that has a name.
pub trait Named {
    ghost named: { Self → List ℕ };

    fn name(&self) -> &[u8]
        ensures { result.now ≡ named self.now };
}

// The place of the first record of that name.
pub fn find<T: Named>(table: &[T], name: &[u8]) -> Option<usize>
    ensures first { result ≡ found (map T.Named.named table.now) name.now }
    ensures below { IfSome result (λ i. i < length table.now) }
{
    table.iter().position(|row| row.name() == name)
}
