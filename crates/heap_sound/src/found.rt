// Lists that hold a sound heap, as a type of their own: what every call but setup asks of the lists that it is lent.
ghost use Rattle.std.specs.Prelude.{◌≡◌, true, false, MatchResult};
ghost use Rattle.leaf_lists.specs.Lists.{lent_of};
ghost use Rattle.rules.specs.Sound.{sound};
ghost use Rattle.refusals.specs.declared.Refusal.TheVariants.{Unsound};

use crate::is_sound;
use leaf_lists::Lists;
use refusals::Refusal;

// Lists that were found to hold a sound heap.
#[derive(Clone, Copy)]
pub struct Sound<'a> {
    pub lists: Lists<'a>,
    pub ghost sound: { sound (lent_of lists) ≡ true },
}

// The lists as ones that hold a sound heap, or the refusal of lists that do not.
pub fn checked(lists: Lists<'_>) -> Result<Sound<'_>, Refusal>
    ensures { MatchResult result (λ s. (sound (lent_of lists.entry) ≡ true) × (s.lists ≡ lists.entry)) (λ r. (sound (lent_of lists.entry) ≡ false) × (r ≡ Unsound)) }
{
    if !is_sound(lists) {
        return Err(Refusal::Unsound);
    }
    Ok(Sound { lists })
}
