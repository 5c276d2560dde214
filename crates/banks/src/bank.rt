// What the runner asks of a bank of input ports. A bank written later owes these clauses and no others.
ghost use Rattle.std.specs.Prelude.{◌≡◌, ℕ, ◌≤◌, []};
ghost use Rattle.banks.specs.Banks.{Words, front, without};

pub trait Bank {
    // the words still to come at each port
    ghost words: { Self → Words };

    // a port above 7 has none
    ghost eight: { (b : Self) (p : ℕ) → 8 ≤ p → words b p ≡ [] };

    // The first word to come at a port, and only that port's list loses it.
    // Where the list is empty, as above port 7, the answer is None, and no list changes: the rest of an empty list is empty.
    fn take(&mut self, port: u32) -> Option<u32>
        ensures first { result ≡ front (words self.old port) }
        ensures rest { (p : ℕ) → words self.new p ≡ without (words self.old) port p };
}
