//! The random bytes of which identifiers and keys are made.
ghost use Rattle.std.specs.Prelude.{◌≡◌, ℕ, IfSome, length, List, Option};

use std::random::RandomSource;

/// Where random bytes come from.
pub trait Chance {
    /// One comes of another by giving these bytes, or by giving none.
    ghost gives: { Option (List ℕ) → Self → Self → Type 0 };

    /// Random bytes, if there are some to be had.
    fn draw(&mut self) -> Option<[u8; 16]>
        ensures given { gives result self.old self.new }
        ensures sized { IfSome result (λ bytes. length bytes ≡ 16) };
}

/// The random bytes of the machine. Which it will give isn't known.
#[derive(Drop)]
pub struct MachineChance<'a> {
    rt: &'a HostRuntime,
}

impl<'a> MachineChance<'a> {
    pub fn new(rt: &'a HostRuntime) -> MachineChance<'a> {
        MachineChance { rt }
    }
}

impl<'a> Chance for MachineChance<'a> {
    ghost gives = { λ _ _ _. Unit {0} };

    fn draw(&mut self) -> Option<[u8; 16]> {
        let mut bytes = [0u8; 16];
        if self.rt.fill_bytes(&mut bytes).is_ok() {
            Some(bytes)
        } else {
            None
        }
    }
}
