// A first-in, first-out queue over records that the caller lends. It holds as many items as there are records, and uses a
// freed record again.
#![tactic(auto, using(crate::proofs::Cyclic::cyclic_length))]

ghost use Rattle.std.specs.Prelude.{◌≡◌, ◌+◌, ◌<◌, ◌≤◌, ◌↔◌, [], ◌∷◌, ◌++◌, length, IsTrue, IsOk, OnOk, OnErr, slice_get, slice_set};
ghost use Rattle.std.specs.Option.{option_to_list};

// What a queue refuses: an item where every record is in use.
#[derive(Clone, Copy, PartialEq, Eq, Debug)]
pub struct Full;

// A ring over a lent slice, with no heap: its records may stand in any memory, and how many there are is fixed.
// Clauses speak of what waits, of the lent records and of the free record, so no one of them is its model.
#[derive(Drop)]
pub struct Queue<'a, T> {
    records: &'a mut [T],
    // The place of the oldest item, where one waits.
    head: usize,
    // How many items wait.
    len: usize,
    ghost head_within: { head ≤ length records.now },
    ghost len_within: { len ≤ length records.now },
}

impl<'a, T: Copy> Queue<'a, T> {
    ghost use Rattle.queue.specs.Waiting.{waiting, room, records, place, free_place};

    // A queue over these records, in which nothing waits.
    #[tactic(auto, unfolding(crate::specs::Waiting::cyclic))]
    pub fn new(lent: &'a mut [T]) -> Self
        ensures empty { waiting result ≡ [] }
        ensures records { records result ≡ lent.old }
    {
        Queue {
            records: lent,
            head: 0,
            len: 0,
        }
    }

    // How many items wait.
    pub fn len(&self) -> usize
        ensures { result ≡ length (waiting self.now) }
    {
        self.len
    }

    // Whether nothing waits.
    pub fn is_empty(&self) -> bool
        ensures { IsTrue result ↔ (waiting self.now ≡ []) }
    {
        self.len == 0
    }

    // How many items may wait.
    pub fn capacity(&self) -> usize
        ensures { result ≡ room self.now }
    {
        self.records.len()
    }

    // The items that wait, oldest first: those up to the last record, and those from the first record on.
    pub fn as_slices(&self) -> (&[T], &[T])
        ensures { result.0.now ++ result.1.now ≡ waiting self.now }
    {
        let (before, after) = self.records.split_at(self.head);
        if self.len <= after.len() {
            (&after[..self.len], &[])
        } else {
            (after, &before[..self.len - after.len()])
        }
    }

    // The place of the record that has i records between it and the oldest item's, going round.
    fn place(&self, i: usize) -> usize
        requires { i < room self.now }
        ensures at { result ≡ place (room self.now) self.now.head i }
        ensures within { result < room self.now }
    {
        let front = self.capacity() - self.head;
        if i < front { self.head + i } else { i - front }
    }

    // The item that has i older ones before it.
    pub fn get(&self, i: usize) -> Option<T>
        ensures { result ≡ slice_get (waiting self.now) i }
    {
        if i >= self.len {
            return None;
        }
        let at = self.place(i);
        Some(self.records[at])
    }

    // Puts an item last, where there is room for one more.
    pub fn push(&mut self, x: T) -> Result<(), Full>
        ensures fits { IsOk result ↔ (length (waiting self.old) < room self.old) }
        ensures last { OnOk result (waiting self.new ≡ waiting self.old ++ x ∷ []) }
        ensures written { OnOk result (records self.new ≡ slice_set (records self.old) (free_place self.old) x) }
        ensures room { room self.new ≡ room self.old }
        ensures full { OnErr result (self.new ≡ self.old) }
    {
        if self.len == self.capacity() {
            return Err(Full);
        }
        let len = self.len;
        let at = self.place(len);
        self.records[at] = x;
        self.len += 1;
        Ok(())
    }

    // Removes the oldest item; `None` where nothing waits.
    pub fn pop(&mut self) -> Option<T>
        ensures oldest { result ≡ slice_get (waiting self.old) 0 }
        ensures after { waiting self.old ≡ option_to_list result ++ waiting self.new }
        ensures records { records self.new ≡ records self.old }
    {
        if self.len == 0 {
            return None;
        }
        let at = self.place(0);
        let x = self.records[at];
        self.head = at + 1;
        self.len -= 1;
        Some(x)
    }
}
