//! How many ticks may pass at once.
ghost use Rattle.std.specs.Prelude.{◌↔◌, IsTrue};
ghost use Rattle.ecall_c.specs.Ticks.{IsPassable};

/// Whether so many ticks may pass before an end that does something after `due` of them.
pub fn is_passable(n: u32, due: Option<u32>) -> bool
    ensures { IsTrue result ↔ IsPassable n due }
{
    match due {
        Some(most) => 1 <= n && n <= most,
        None => 1 <= n,
    }
}
