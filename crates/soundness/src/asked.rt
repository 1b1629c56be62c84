// What every entry point asks first, in the old order: 3, a memory that is not sound; 4, a number that is no element's; 5, a divider that does not fit.
ghost use Rattle.std.specs.Prelude.{◌≡◌, [], ◌∷◌, ltb, length, get_or};
ghost use Rattle.rules.specs.Lists.{all};
ghost use Rattle.space.specs.Chains.{Indexed};
ghost use Rattle.space.specs.Lent.{lent};
ghost use Rattle.soundness.specs.Asked.{asked_of, roots_asked, DividerAsked};

use crate::sound::{memory_indexed, memory_sound};
use hypermath::{DistanceKind, distance_kind, is_unit};
use rules::{ElementId, Hyperplane, Refusal, Reply};
use space::memory::Memory;
use space::words::wide;

// What a root and a divider that are not refused are told: all on one side by rule 1, or a plane to be tested against.
#[derive(Clone, Copy)]
pub enum Asking {
    AllInside,
    AllOutside,
    Finite,
}

// 4: whether the number is an element's, by the counts.
fn in_use(counts: &[u16], root: ElementId) -> bool
    requires { length counts.now ≡ 4 }
    ensures { result ≡ ltb root.0 (get_or counts.now 1 0) }
{
    root.0 < wide(counts[1])
}

// 4, then 5, of a memory that is known to be sound: its counts tell the dimension and how many elements there are.
pub fn sound_asked(counts: &[u16], divider: Hyperplane, root: ElementId) -> Reply<Asking>
    requires { length counts.now ≡ 4 }
    ensures { result ≡ asked_of (get_or counts.now 0 0) (get_or counts.now 1 0) divider root.0 }
{
    if !in_use(counts, root) {
        return Err(Refusal::NotInUse);
    }
    let normal = divider.normal;
    if !is_unit(wide(counts[0]), normal) {
        return Err(Refusal::Divider);
    }
    let kind = distance_kind(divider.distance);
    match kind {
        DistanceKind::Unfit => Err(Refusal::Divider),
        DistanceKind::PlusInfinity => Ok(Asking::AllInside),
        DistanceKind::MinusInfinity => Ok(Asking::AllOutside),
        DistanceKind::Finite => Ok(Asking::Finite),
    }
}

// 3, then 4, then 5. From an empty index to that of the memory, where it is sound.
pub fn divider_asked(
    memory: Memory,
    index: &mut [u16],
    divider: Hyperplane,
    root: ElementId,
) -> Reply<Asking>
    requires { Indexed memory.elements.now 0 index.old }
    ensures { DividerAsked (lent memory.entry) divider root.0 result index.new }
{
    if !memory_indexed(memory, index) {
        return Err(Refusal::NotSound);
    }
    sound_asked(memory.counts, divider, root)
}

// Where there is no divider: 3 or 4, or the question goes on.
pub fn root_asked(memory: Memory, root: ElementId) -> Reply<()>
    ensures { result ≡ roots_asked (lent memory.entry) (root.0 ∷ []) }
{
    if !memory_sound(memory) {
        return Err(Refusal::NotSound);
    }
    if !in_use(memory.counts, root) {
        return Err(Refusal::NotInUse);
    }
    Ok(())
}

// Whether every number is an element's, of n elements.
pub fn all_used(roots: &[u16], n: u16) -> bool
    ensures { result ≡ all (λ e. ltb e n) roots.now }
{
    roots.iter().all(|&root| root < n)
}

// The same for any number of roots.
pub fn roots_asked(memory: Memory, roots: &[u16]) -> Reply<()>
    ensures { result ≡ roots_asked (lent memory.entry) roots.now }
{
    if !memory_sound(memory) {
        return Err(Refusal::NotSound);
    }
    if !all_used(roots, memory.counts[1]) {
        return Err(Refusal::NotInUse);
    }
    Ok(())
}
