ghost use Rattle.std.specs.Prelude.{◌<◌, IsPermutation, length};

/// The maximum number of places that an element is moved, so that presorting takes O(n) time.
const MOST_MOVES: usize = 32;

/// Moves each element towards the front, past the elements before it with greater numbers, but by a few places at
/// most.
///
/// A list in which each element is near its sorted place comes out sorted, and a sort of it is one pass. Any other
/// list comes out in some other order, since the work stops at the first element that is moved as far as allowed.
/// Takes O(n) time.
pub fn presort<T: Copy, F: Fn(&T) -> u64>(elements: &mut Vec<T>, number: &F)
    requires { F.IsAlwaysCallable number.now }
    ensures { IsPermutation elements.old.items elements.new.items }
{
    presort_slice(elements.as_mut_slice(), number);
}

#[inline(always)]
fn presort_slice<T: Copy, F: Fn(&T) -> u64>(elements: &mut [T], number: &F)
    requires { F.IsAlwaysCallable number.now }
    ensures { IsPermutation elements.old elements.new }
{
    for place in 1..elements.len() {
        if number(&elements[place]) < number(&elements[place - 1])
            && !presort_one(elements, number, place)
        {
            return;
        }
    }
}

/// Moves one element towards the front. Returns false if it was moved as far as allowed.
#[inline(always)]
fn presort_one<T: Copy, F: Fn(&T) -> u64>(elements: &mut [T], number: &F, place: usize) -> bool
    requires place { place < length elements.old }
    requires number { F.IsAlwaysCallable number.now }
    ensures { IsPermutation elements.old elements.new }
{
    let mut at = place;
    let least = place.saturating_sub(MOST_MOVES);
    while at > least && number(&elements[at]) < number(&elements[at - 1]) {
        elements.swap(at - 1, at);
        at -= 1;
    }
    at > least || at == 0
}
