// The numbers of the calls that are to fail.
ghost use Rattle.std.specs.Prelude.{◌≡◌};
ghost use Rattle.pk_outside.specs.InMemory.{is_to_fail};
ghost use Rattle.pk_outside.specs.Outside.{counted};

/// How many calls there were, and the numbers, counted from 1, of those that are to fail.
#[derive(Drop)]
pub(crate) struct Calls {
    pub(crate) failing: Vec<u64>,
    pub(crate) made: u64,
}

impl Calls {
    pub(crate) fn new(failing: Vec<u64>) -> Self
        ensures failing { result.failing ≡ failing }
        ensures made { result.made ≡ 0 }
    {
        Calls { failing, made: 0 }
    }

    /// Counts one more call, and answers whether it is to fail.
    pub(crate) fn next_fails(&mut self) -> bool
        ensures answer { result ≡ is_to_fail self.old.failing.items (counted self.old.made) }
        ensures failing { self.new.failing ≡ self.old.failing }
        ensures made { self.new.made ≡ counted self.old.made }
    {
        self.made = self.made.saturating_add(1);
        self.failing.contains(&self.made)
    }
}
