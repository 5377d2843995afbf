//! A fault count, and the calls that are set to fail.
ghost use Rattle.std.specs.Prelude.{◌≡◌, ◌≤◌};
ghost use Rattle.outside_core.specs.Faults.{is_to_fail, one_more};

/// Adds one to a count; the last 64-bit value stays.
pub fn raise(count: &mut u64)
    ensures value { count.new ≡ one_more count.old }
    ensures later { count.old ≤ count.new }
{
    *count = count.saturating_add(1);
}

/// The numbers of the calls that are set to fail, counted from 1, and how many calls were made.
#[derive(Drop)]
pub struct Calls {
    fail: Vec<u64>,
    made: u64,
}

impl Calls {
    pub fn new(fail: Vec<u64>) -> Calls
        ensures fail { result.fail ≡ fail }
        ensures made { result.made ≡ 0 }
    {
        Calls { fail, made: 0 }
    }

    /// Counts a call, and returns whether it is set to fail.
    pub fn fails_next(&mut self) -> bool
        ensures fails { result ≡ is_to_fail self.old.fail.items (one_more self.old.made) }
        ensures made { self.new.made ≡ one_more self.old.made }
        ensures fail { self.new.fail ≡ self.old.fail }
    {
        raise(&mut self.made);
        self.fail.contains(&self.made)
    }
}
