//! Choices.

ghost use Rattle.std.specs.Prelude.{◌≡◌, OnErr, OnOk};
ghost use Rattle.go_sched.specs.Choices.{chosen, picked, noted, used_up, is_spent, MakesRoom};
ghost use Rattle.go_sched.specs.Goroutines.{state_of};

use crate::scheduling::Sched;
use go_base::NoMemory;

impl Sched {
    /// A choice among so many candidates: of one it is 0 and takes no number of the list; of more it takes the next
    /// number, modulo their number, and is 0 where none is left.
    pub fn pick(&mut self, n: u64) -> u32
        ensures value { result ≡ chosen n (state_of self.old) }
        ensures after { state_of self.new ≡ picked n (state_of self.old) }
    {
        let chosen = self.choice(n);
        if n > 1 {
            self.used_up();
            self.note(chosen);
        }
        chosen
    }

    fn note(&mut self, chosen: u32)
        ensures { state_of self.new ≡ noted chosen (state_of self.old) }
    {
        if self.records && self.taken.len() < self.taken.capacity() {
            self.taken.push_reserved(chosen);
        }
    }

    /// What `pick` gives, without its number being taken.
    pub(crate) fn choice(&self, n: u64) -> u32
        ensures { result ≡ chosen n (state_of self.now) }
    {
        if n <= 1 {
            return 0;
        }
        match self.choices.get(self.used) {
            Some(number) => (u64::from(*number) % n) as u32,
            None => 0,
        }
    }

    /// The next number is used up.
    fn used_up(&mut self)
        ensures { state_of self.new ≡ used_up (state_of self.old) }
    {
        if self.used < self.choices.len() {
            self.used += 1;
        }
    }

    /// Whether no number of the list is left.
    pub fn is_spent(&self) -> bool
        ensures { result ≡ is_spent (state_of self.now) }
    {
        self.used >= self.choices.len()
    }

    /// Room for one more number that is recorded. After `NoMemory` all is as before.
    pub fn make_room(&mut self) -> Result<(), NoMemory>
        ensures ok { OnOk result (MakesRoom (state_of self.old) (state_of self.new)) }
        ensures err { OnErr result (state_of self.new ≡ state_of self.old) }
    {
        if self.records && self.taken.len() >= self.taken.capacity() {
            self.taken.reserve(1)?;
        }
        Ok(())
    }

    /// The numbers that choices among more than one candidate took, in order. Empty where nothing is recorded.
    pub fn taken(&self) -> &[u32]
        ensures { result.now ≡ (state_of self.now).taken }
    {
        self.taken.as_slice()
    }
}
