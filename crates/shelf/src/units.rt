// The memory of a shelf: units of one length, one after the other.
ghost use Rattle.std.specs.Prelude.{◌≡◌, ℕ, ◌+◌, ◌*◌, ◌/◌, ◌<◌, ◌≤◌, Bool, false, not, List, length, MatchOption};
ghost use Rattle.shelf.specs.Sums.{count_of};
ghost use Rattle.shelf.specs.Memories.{unit_at, nth_unit, NoneFree, IsFree, OneUnit, Cleared};

/// One kind of unit: so many bytes, which are free or used for a slot.
pub trait Unit<const N: usize> {
    // is a unit with these bytes used?
    ghost used: { List ℕ → Bool };

    // is it used for this slot?
    ghost in_slot: { List ℕ → ℕ → Bool };

    // it is free
    ghost Freed: { List ℕ → Type 0 };

    /// Whether the unit is used.
    fn is_used(unit: &[u8; N]) -> bool
        ensures { result ≡ used unit.now };

    /// Whether the unit is used for this slot.
    fn is_in_slot(unit: &[u8; N], slot: usize) -> bool
        ensures { result ≡ in_slot unit.now slot };

    /// Frees the unit.
    fn free(unit: &mut [u8; N])
        ensures { Freed unit.new };

    // a unit has a byte
    ghost some_byte: { 0 < N };

    // one that is free is not used
    ghost unused: { (x : List ℕ) → Freed x → used x ≡ false };
}

/// The index of a unit that is free.
pub fn find_free<U: Unit<N>, const N: usize>(units: &[[u8; N]]) -> Option<usize>
    ensures { MatchOption result
        (NoneFree U.used (nth_unit units.now) (length units.now))
        (λ i. IsFree U.used (nth_unit units.now) (length units.now) i) }
{
    units.iter().position(
        |unit: &[u8; N]| -> bool
            ensures { result ≡ not (U.used unit.now) }
        { !U::is_used(unit) },
    )
}

/// How many units are used.
pub fn count_used<U: Unit<N>, const N: usize>(units: &[[u8; N]]) -> usize
    ensures { result ≡ count_of (λ i. U.used (nth_unit units.now i)) (length units.now) }
{
    // A loop over the elements: as `filter(..).count()` it takes twice the time.
    let mut used = 0;
    for unit in units {
        if U::is_used(unit) {
            used += 1;
        }
    }
    used
}

// Frees the unit that has these bytes: a slice, since of a part of a memory that is lent as an array a proof does not
// know what it ends as.
fn free<U: Unit<N>, const N: usize>(bytes: &mut [u8])
    requires { length bytes.old ≡ N }
    ensures freed { U.Freed bytes.new }
    ensures long { length bytes.new ≡ N }
{
    U::free(bytes.as_mut_array().unwrap());
}

// Frees unit `index` of the memory. By place: the library says nothing of what a slice ends as after `as_chunks_mut`.
fn free_at<U: Unit<N>, const N: usize>(memory: &mut [u8], index: usize)
    requires { index * N + N ≤ length memory.old }
    ensures freed { U.Freed (unit_at N memory.new index) }
    ensures one { OneUnit N memory.old index memory.new }
{
    let at = index * N;
    free::<U, N>(&mut memory[at..at + N]);
}

/// Frees the whole units of a memory that are used for this slot.
pub fn free_slot<U: Unit<N>, const N: usize>(memory: &mut [u8], slot: usize)
    ensures cleared { Cleared U.in_slot U.Freed
        (unit_at N memory.old) slot (length memory.old / N) (unit_at N memory.new) }
    ensures size { length memory.new ≡ length memory.old }
{
    // By index: after `chunks_mut` a proof does not know the elements.
    for i in 0..memory.len() / N {
        if U::is_in_slot(&memory.as_chunks().0[i], slot) {
            free_at::<U, N>(memory, i);
        }
    }
}

/// Frees every whole unit of a memory, whatever stood there.
pub fn free_all<U: Unit<N>, const N: usize>(memory: &mut [u8])
    ensures freed { (i : ℕ) → i < length memory.old / N → U.Freed (unit_at N memory.new i) }
    ensures later { (i : ℕ) → length memory.old / N ≤ i →
        unit_at N memory.new i ≡ unit_at N memory.old i }
    ensures size { length memory.new ≡ length memory.old }
{
    // By index: after `chunks_mut` a proof does not know the elements.
    for index in 0..memory.len() / N {
        free_at::<U, N>(memory, index);
    }
}
