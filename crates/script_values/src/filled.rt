// An array whose first items count.
ghost use Rattle.std.specs.Prelude.{◌≡◌};
ghost use Rattle.script_values.specs.Filled.{none_of, with_one, items_in};

// So many items of an array. Their number has no ghost field: of a struct that has one no part can be lent to write into.
#[derive(Clone, Copy)]
pub struct Filled<T, const N: usize> {
    pub(crate) items: [T; N],
    pub(crate) len: usize,
}

impl<T: Copy, const N: usize> Filled<T, N> {
    // One item again and again, of which none counts.
    #[tactic(auto, unfolding(crate::specs::Filled::none_of))]
    pub(crate) fn none(item: T) -> Self
        ensures { result ≡ none_of N item }
    {
        Filled {
            items: [item; N],
            len: 0,
        }
    }

    // An item more, where there is room.
    pub(crate) fn push(&mut self, item: T)
        ensures { self.new ≡ with_one N item self.old }
    {
        if self.len < N {
            self.items[self.len] = item;
            self.len += 1;
        }
    }

    pub fn as_slice(&self) -> &[T]
        ensures { result.now ≡ items_in N self.now }
    {
        &self.items[..self.len.min(N)]
    }

    // The items to write into.
    pub fn as_mut_slice(&mut self) -> &mut [T]
        ensures { result.now ≡ items_in N self.old }
    {
        &mut self.items[..self.len.min(N)]
    }
}
