//! Keys in order, to tell those that come more than once.

ghost use Rattle.std.specs.Prelude.{◌≡◌, [], true, List};
ghost use Rattle.std.specs.Ordering.{is_eq};
ghost use Rattle.sx_filter.specs.Alone.{is_twice};
ghost use Rattle.sx_filter.specs.Named.{IsSeen};

/// Keys, sorted.
#[derive(Debug, Drop)]
pub struct Seen<K: Ord> {
    keys: Vec<K>,
}

impl<K: Ord + Copy> Seen<K> {
    /// The keys of a list.
    pub fn of(keys: Vec<K>) -> Seen<K>
        ensures { IsSeen K.cmp keys.items result }
    {
        let mut keys = keys;
        keys.sort_unstable();
        Seen { keys }
    }

    /// Whether the key came more than once.
    pub fn is_again(&self, key: K) -> bool
        ensures { (keys : List K) → IsSeen K.cmp keys self.now
            → result ≡ is_twice (λ k. is_eq (K.cmp k key)) keys }
    {
        let first = self.keys.partition_point(|one| one.cmp(&key).is_lt());
        if first >= self.keys.len().saturating_sub(1) {
            return false;
        }
        self.keys[first + 1].cmp(&key).is_eq()
    }

    /// Whether there are no keys.
    pub fn is_empty(&self) -> bool
        ensures { (keys : List K) → IsSeen K.cmp keys self.now → result ≡ true → keys ≡ [] }
    {
        self.keys.is_empty()
    }
}
