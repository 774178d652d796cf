//! The nodes of a pool, and the two indexes by which they hang together.

ghost use Rattle.std.specs.Prelude.{◌≡◌, ◌≢◌, ℕ, ◌+◌, ◌-◌, ◌^◌, ◌<◌, ◌≤◌, List, Some, None, IsSome, vec_len, vec_capacity};
ghost use Rattle.std.specs.Option.{ForSome};
ghost use Rattle.sx_links.specs.Pool.{next_of, before_of, HasPlace, Mutual, SetsNext, Joins, Inserts, Removes, IsLinked, IsLoose, Refills, Appends, Holds, value_of, place_of};
ghost use Rattle.sx_links.specs.declared.pool.Place.TheVariants.{After};

// What may be directly before a node.
#[derive(Clone, Copy)]
pub enum Place {
    // The front of the free nodes.
    Free,
    // The front of a list.
    Front(u32),
    // Another node.
    After(u32),
}

impl Place {
    // The place after a node of a list, or in front of the list.
    pub fn of(list: u32, after: Option<u32>) -> Place
        ensures { result ≡ place_of list after }
    {
        match after {
            Some(node) => Place::After(node),
            None => Place::Front(list),
        }
    }
}

#[derive(Drop)]
pub struct Node<T> {
    pub before: Place,
    pub next: Option<u32>,
    // Nothing in a free node.
    pub value: Option<T>,
}

#[derive(Drop)]
pub struct Pool<T> {
    // The first of the free nodes.
    pub free: Option<u32>,
    // The first node of each list.
    pub fronts: Vec<Option<u32>>,
    pub nodes: Vec<Node<T>>,
}

// What reads and writes the fields.
#[tactic(auto, unfolding(crate::specs::Pool::next_of, crate::specs::Pool::before_of, crate::specs::Pool::slot_of))]
impl<T> Pool<T> {
    // The node directly after a place.
    pub fn next(&self, place: Place) -> Option<u32>
        requires { HasPlace self.now place }
        ensures { result ≡ next_of self.now place }
    {
        match place {
            Place::Free => self.free,
            Place::Front(list) => self.fronts[list as usize],
            Place::After(node) => self.nodes[node as usize].next,
        }
    }

    // The place that a node stands after.
    fn before(&self, node: u32) -> Place
        requires { node < vec_len self.now.nodes }
        ensures { before_of self.now node ≡ Some result }
    {
        self.nodes[node as usize].before
    }

    fn set_next(&mut self, place: Place, next: Option<u32>)
        requires { HasPlace self.old place }
        ensures { SetsNext self.old self.new place next }
    {
        match place {
            Place::Free => self.free = next,
            Place::Front(list) => self.fronts[list as usize] = next,
            Place::After(node) => self.nodes[node as usize].next = next,
        }
    }

    // Lets a node follow a place, and changes the indexes of both; or lets none follow it.
    fn link(&mut self, place: Place, next: Option<u32>)
        requires place_in { HasPlace self.old place }
        requires next_in { ForSome next (λ m. m < vec_len self.old.nodes) }
        ensures { Joins self.old self.new place next }
    {
        self.set_next(place, next);
        if let Some(node) = next {
            self.nodes[node as usize].before = place;
        }
    }

    // The value of a node.
    pub fn value(&self, node: u32) -> &T
        requires { IsSome (value_of self.now node) }
        ensures { value_of self.now node ≡ Some result.now }
    {
        self.nodes[node as usize].value.as_ref().unwrap()
    }

    // Gives a node its value.
    pub fn put(&mut self, node: u32, value: T)
    where
        T: Drop,
        requires { node < vec_len self.old.nodes }
        ensures { Refills self.old self.new node (Some value) }
    {
        self.nodes[node as usize].value = Some(value);
    }

    // Takes the value of a node.
    pub fn take(&mut self, node: u32) -> T
        requires { IsSome (value_of self.old node) }
        ensures value { value_of self.old node ≡ Some result }
        ensures taken { Refills self.old self.new node None }
    {
        self.nodes[node as usize].value.take().unwrap()
    }

    // Adds a node that follows nothing and that nothing follows, and answers its number.
    fn append(&mut self) -> u32
        requires room { vec_len self.old.nodes < vec_capacity self.old.nodes }
        requires few { vec_len self.old.nodes < 2 ^ 32 - 1 }
        ensures number { result ≡ vec_len self.old.nodes }
        ensures appended { Appends self.old self.new }
        ensures capacity { vec_capacity self.new.nodes ≡ vec_capacity self.old.nodes }
    {
        let node = self.nodes.len() as u32;
        self.nodes.push_reserved(Node {
            before: Place::Free,
            next: None,
            value: None,
        });
        node
    }
}

// What stands on those alone.
impl<T> Pool<T> {
    // Takes a node out from between its place and what follows it.
    pub fn detach(&mut self, node: u32)
        requires agrees { Mutual self.old }
        requires linked { IsLinked self.old node }
        ensures { Removes self.old self.new node }
    {
        let before = self.before(node);
        let next = self.next(Place::After(node));
        self.set_next(Place::After(node), None);
        self.link(before, next);
    }

    // Puts a node that follows nothing directly after a place.
    pub fn attach(&mut self, node: u32, place: Place)
        requires place_in { HasPlace self.old place }
        requires node_in { node < vec_len self.old.nodes }
        requires apart { place ≢ After node }
        requires agrees { Mutual self.old }
        requires loose { IsLoose self.old node }
        ensures { Inserts self.old self.new node place }
    {
        let next = self.next(place);
        self.link(Place::After(node), next);
        self.link(place, Some(node));
    }

    // Adds a free node.
    fn add_free(&mut self)
        requires room { vec_len self.old.nodes < vec_capacity self.old.nodes }
        requires few { vec_len self.old.nodes < 2 ^ 32 - 1 }
        requires agrees { Mutual self.old }
        ensures agrees { Mutual self.new }
        ensures chains { (lists : List (List (ℕ × T))) (n : ℕ) → Holds self.old lists n → Holds self.new lists (n + 1) }
        ensures nodes { vec_len self.new.nodes ≡ vec_len self.old.nodes + 1 }
        ensures capacity { vec_capacity self.new.nodes ≡ vec_capacity self.old.nodes }
    {
        let node = self.append();
        self.attach(node, Place::Free);
    }

    // Adds `missing` free nodes, for which there is memory already.
    pub fn grow(&mut self, missing: u32)
        requires room { vec_len self.old.nodes + missing ≤ vec_capacity self.old.nodes }
        requires few { vec_len self.old.nodes + missing < 2 ^ 32 - 1 }
        requires agrees { Mutual self.old }
        ensures chains { (lists : List (List (ℕ × T))) (n : ℕ) → Holds self.old lists n → Holds self.new lists (n + missing) }
        ensures nodes { vec_len self.new.nodes ≡ vec_len self.old.nodes + missing }
    {
        for _added in 0..missing {
            self.add_free();
        }
    }
}
