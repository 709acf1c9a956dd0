// Classes of slots, in place of the set of visited pairs of compare.rs: a class holds what was taken as equal, and what follows
// from it. Document 01, "Equality": "The answer is false exactly when a finite chain of such steps fails." A word for each slot:
// 0 not met, else one more than its link, which is the slot itself (a root) or a higher one of its class.
#![tactic(auto)]

ghost use Rattle.std.specs.Prelude.{◌≡◌, true, not, ◌<◌, length};
ghost use Rattle.leaf_classes.specs.Classes.{met, Rises, meeting, Finds, Joins};

// Kept: 0 for a slot not met, since the links are lent scratch, whose words are all zero before and after (the C interface).

// The root of a met slot's class. Each link that is passed is set to the next but one, so that later ways are half as long.
#[tactic(auto, using(crate::proofs::Ways::word_positive, crate::proofs::Ways::slot_inside, crate::proofs::Ways::next_met, crate::proofs::Ways::next_inside, crate::proofs::Ways::goes_on))]
pub fn find(links: &mut [u64], s: usize) -> usize
    requires rises { Rises links.old }
    requires s_value { met links.old s ≡ true }
    ensures { Finds links.old s links.new result }
{
    let mut x = s;
    let mut p = links[x] as usize - 1;
    while p != x {
        let w = links[p];
        links[x] = w;
        x = w as usize - 1;
        p = links[x] as usize - 1;
    }
    x
}

// A slot that is not met yet becomes a class of its own; says whether it did.
#[tactic(auto, unfolding(crate::specs::Classes::met, crate::specs::Classes::meeting))]
fn meet(links: &mut [u64], s: usize) -> bool
    requires { s < length links.old }
    ensures { (result ≡ not (met links.old s)) × (links.new ≡ meeting links.old s) }
{
    if links[s] > 0 {
        return false;
    }
    links[s] = s as u64 + 1;
    true
}

// One class of two slots: the lower root is linked to the higher. False where it was one already.
pub fn join(links: &mut [u64], s: usize, t: usize) -> bool
    requires rises { Rises links.old }
    requires s_in_bounds { (s < length links.old) × (t < length links.old) }
    ensures { Joins links.old s t links.new result }
{
    let fresh = meet(links, s);
    meet(links, t);
    let a = find(links, s);
    let b = find(links, t);
    if a == b {
        return fresh;
    }
    let low = a.min(b);
    let high = a.max(b);
    links[low] = high as u64 + 1;
    true
}
