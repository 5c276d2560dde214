// A bank whose words are counted up.
ghost use Rattle.std.specs.Prelude.{ℕ};
ghost use Rattle.banks.specs.Banks.{above_seven};
ghost use Rattle.banks.specs.Held.{words_left};

use crate::bank::Bank;

mod create;

// A port's next word, what is added for the one after it, and how many are left.
#[derive(Clone, Copy)]
struct Count {
    next: u32,
    stride: u32,
    left: u16,
}

#[derive(Clone, Copy)]
pub struct Counter {
    ports: [Count; 8],
}

impl Bank for Counter {
    ghost words = { λ t. words_left t.ports };

    ghost eight = { λ b p above. above_seven p _ above };

    fn take(&mut self, port: u32) -> Option<u32> {
        let port = port as usize;
        let count = *self.ports.get(port)?;
        let left = count.left.checked_sub(1)?;
        self.ports[port] = Count {
            next: count.next.wrapping_add(count.stride),
            left,
            ..count
        };
        Some(count.next)
    }
}
