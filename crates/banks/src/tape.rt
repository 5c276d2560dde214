// A bank that reads words in the caller's memory.
ghost use Rattle.std.specs.Prelude.{ℕ, map};
ghost use Rattle.banks.specs.Banks.{above_seven};
ghost use Rattle.banks.specs.Held.{listed};

use crate::bank::Bank;

mod create;

// For each port the words still to come, in the caller's memory.
#[derive(Drop)]
pub struct Tape<'a> {
    ports: [&'a [u32]; 8],
}

impl<'a> Bank for Tape<'a> {
    ghost words = { λ t. listed (map (λ s. s.now) t.ports) };

    ghost eight = { λ b p above. above_seven p _ above };

    fn take(&mut self, port: u32) -> Option<u32> {
        let port = port as usize;
        let (&word, rest) = self.ports.get(port)?.split_first()?;
        self.ports[port] = rest;
        Some(word)
    }
}
